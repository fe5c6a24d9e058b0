// Free places of buffers: a buffer is full where it has none. Messages themselves stay with the host; a buffer is its
// count.
#![tactic(auto)]

ghost use Rattle.std.specs.Prelude.{◌≡◌};
ghost use Rattle.refusals.specs.Refusals.{number};
ghost use Rattle.messages_buffer.specs.Fullness.{free_in, with_free, limit_fits, count_fits, has_limit, limits_number, partitions_number, all_limited, range_free, answer_of, fill_state};

use refusals::Refusal;

// The most that a buffer's count or limit may be.
pub const BUFFER_CAP: u32 = 1024;

// In a table of limits: the partition has no limit, that is no entry. It never means unbounded.
// A number and no `Option`: C interface, document 01 names the form.
pub const NO_LIMIT: u16 = 65535;

// One partition's record in a range. Where it is not present its numbers are free.
// `present` is a flag and no `Option`: C interface, document 01 names the form.
#[repr(C)]
#[derive(Clone, Copy, Debug, PartialEq, Eq)]
pub struct ExternalsPartitionRangeReaderState {
    pub count: u32,
    pub skip_offset: u32,
    pub processed_offset: u32,
    pub present: bool,
}

// An absent partition.
pub const NO_PARTITION: ExternalsPartitionRangeReaderState = ExternalsPartitionRangeReaderState {
    count: 0,
    skip_offset: 0,
    processed_offset: 0,
    present: false,
};

// How many messages more one buffer takes: 0 where it is full.
#[tactic(auto, unfolding(crate::specs::Fullness::free_in))]
pub fn check_is_filled(count: u32, limit: u16) -> u16
    ensures { result ≡ free_in count limit }
{
    u32::from(limit).saturating_sub(count) as u16
}

fn limit_fits(limit: u16) -> bool
    ensures { result ≡ limit_fits limit }
{
    limit == NO_LIMIT || u32::from(limit) <= BUFFER_CAP
}

fn count_fits(partition: ExternalsPartitionRangeReaderState) -> bool
    ensures { result ≡ count_fits partition }
{
    !partition.present || partition.count <= BUFFER_CAP
}

fn has_limit(limit: u16, partition: ExternalsPartitionRangeReaderState) -> bool
    ensures { result ≡ has_limit limit partition }
{
    !partition.present || limit != NO_LIMIT
}

// The fewest so far, with one partition more; an absent one has no buffer.
fn with_free(limit: u16, partition: ExternalsPartitionRangeReaderState, free: u16) -> u16
    ensures { result ≡ with_free limit partition free }
{
    if !partition.present {
        return free;
    }
    free.min(check_is_filled(partition.count, limit))
}

// Question 4 of the limits.
pub fn check_limits(limits: [u16; 8]) -> Result<(), Refusal>
    ensures { number result ≡ limits_number limits }
{
    if !limits.iter().all(|limit| limit_fits(*limit)) {
        return Err(Refusal::LimitTooHigh);
    }
    Ok(())
}

// Question 5 of a range's partitions.
pub fn check_partitions(partitions: [ExternalsPartitionRangeReaderState; 8]) -> Result<(), Refusal>
    ensures { number result ≡ partitions_number partitions }
{
    if !partitions.iter().all(|partition| count_fits(*partition)) {
        return Err(Refusal::StateUnsound);
    }
    Ok(())
}

fn all_limited(limits: [u16; 8], partitions: [ExternalsPartitionRangeReaderState; 8]) -> bool
    ensures { result ≡ all_limited limits partitions }
{
    limits
        .iter()
        .zip(&partitions)
        .all(|(limit, partition)| has_limit(*limit, *partition))
}

fn range_free(limits: [u16; 8], partitions: [ExternalsPartitionRangeReaderState; 8]) -> u16
    ensures { result ≡ range_free limits partitions }
{
    limits.iter().zip(&partitions).fold(
        BUFFER_CAP as u16,
        |free, (limit, partition)| with_free(*limit, *partition, free),
    )
}

// The fewest free places of a range's buffers, 1,024 where it has none; questions 4, 5 and 10 come first.
#[tactic(auto, using(refusals::proofs::Laws::handed_on, refusals::proofs::Laws::number_is_some, crate::proofs::Laws::fill_number_4, crate::proofs::Laws::fill_number_5, crate::proofs::Laws::refused_without_limit, crate::proofs::Laws::answered), unfolding(crate::specs::Fullness::fill_state))]
pub fn get_max_buffers_fill_state(
    limits: [u16; 8],
    partitions: [ExternalsPartitionRangeReaderState; 8],
) -> Result<u16, Refusal>
    ensures { answer_of result ≡ fill_state limits partitions }
{
    check_limits(limits)?;
    check_partitions(partitions)?;
    if !all_limited(limits, partitions) {
        return Err(Refusal::LimitMissing);
    }
    Ok(range_free(limits, partitions))
}
