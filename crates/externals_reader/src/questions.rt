// Document 01's questions of a reader and of a read of all ranges.
ghost use Rattle.std.specs.Prelude.{◌≤◌, ◌≡◌, take};
ghost use Rattle.reader_rules.specs.State.{range_sound, sound_ranges_from, ranges_number, max_ranges, settled_number, reader_number};
ghost use Rattle.refusals.specs.Refusals.{number};
ghost use Rattle.externals_reader.specs.Calls.{asked_of_read};

use anchors_cache::AnchorsCacheTransaction;
use cache_rules::AREA_BYTES;
use range_reader::Lent;
use range_rules::ExternalsRangeReaderState;
use reader_rules::{ExternalsReader, MAX_RANGES};
use refusals::Refusal;

// A seqno not below `low`, and counts within the cap.
fn is_sound(low: u64, range: &ExternalsRangeReaderState) -> bool
    ensures { result ≡ range_sound low range.now }
{
    low <= u64::from(range.seqno) && messages_buffer::check_partitions(range.by_partitions).is_ok()
}

#[tactic(auto, using(crate::proofs::Sound::sound_fail, crate::proofs::Sound::sound_next, crate::proofs::Sound::sound_end))]
fn sound_ranges(ranges: &[ExternalsRangeReaderState]) -> bool
    ensures { result ≡ sound_ranges_from 0 ranges.now }
{
    let mut low = 0;
    for range in ranges {
        if !is_sound(low, range) {
            return false;
        }
        low = u64::from(range.seqno) + 1;
    }
    true
}

// Question 5 of the ranges. They are lent: the table is 3,200 bytes, and only looked at.
pub(crate) fn check_ranges(
    ranges: &[ExternalsRangeReaderState; MAX_RANGES],
    len: usize,
) -> Result<(), Refusal>
    ensures { number result ≡ ranges_number ranges.now len }
{
    if MAX_RANGES < len || !sound_ranges(&ranges[..len]) {
        return Err(Refusal::StateUnsound);
    }
    Ok(())
}

// Questions 4 and 5.
#[tactic(auto, using(range_reader::proofs::Numbers::questions), unfolding(reader_rules::specs::State::settled_number))]
fn check_settled(reader: &ExternalsReader) -> Result<(), Refusal>
    ensures { number result ≡ settled_number reader.now }
{
    crate::check_settings(
        reader.buffer_limits_by_partitions,
        reader.msgs_exec_params.open_ranges_limit,
    )?;
    crate::check_lent_state(&reader.reader_state)
}

// Questions 2, 4 and 5.
#[tactic(auto, using(range_reader::proofs::Numbers::questions), unfolding(reader_rules::specs::State::reader_number))]
pub(crate) fn check_reader(reader: &ExternalsReader) -> Result<(), Refusal>
    ensures { number result ≡ reader_number reader.now }
{
    shard_ident::check_shard(reader.for_shard_id)?;
    check_settled(reader)
}

// Questions 1, 2, 3, 4, 5 and 9 of a read.
// By value, lent on from here: with the caller's own reader lent, its answer's table is cleared once more, a quarter
// more instructions in a refused call.
#[tactic(auto, using(range_reader::proofs::Numbers::questions, std::proofs::lemmas::Bool::Decides::nat_tests), unfolding(crate::specs::Calls::asked_of_read))]
pub(crate) fn check_read(
    lent: Lent<'_>,
    t: AnchorsCacheTransaction,
    reader: ExternalsReader,
) -> Result<(), Refusal>
    ensures { number result ≡ asked_of_read lent.entry.tables.now lent.entry.area.now t lent.entry.routes.now reader }
{
    if lent.area.len() < AREA_BYTES {
        return Err(Refusal::AreaTooShort);
    }
    shard_ident::check_shard(reader.for_shard_id)?;
    router::check_routes(lent.routes)?;
    check_settled(&reader)?;
    anchors_cache::check_cache(lent.tables, lent.area, t)?;
    if !t.active {
        return Err(Refusal::TransactionOpenOrNone);
    }
    Ok(())
}
