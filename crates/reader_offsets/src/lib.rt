// Offsets of an externals reader, and the questions about its buffers and ranges.
// A refused call answers why and leaves the reader as at entry.
#![tactic(auto)]

ghost use Rattle.std.specs.Prelude.{◌≡◌, ◌≤◌, length, IfOk};
ghost use Rattle.anchors_cache.specs.Answers.{flag_answer_of};
ghost use Rattle.refusals.specs.Refusals.{number};
ghost use Rattle.reader_rules.specs.State.{state_number, held_ranges, max_ranges};
ghost use Rattle.externals_reader.specs.Answers.{reader_done_of};
ghost use Rattle.reader_offsets.specs.Answers.{by_partitions_of};
ghost use Rattle.reader_offsets.specs.Calls.{finalize_call, limit_reached_call, non_zero_offset_call, offset_reached_call, offsets_reached_call, count_call, has_messages_call, not_fully_read_call, read_and_collected_call, check_read_and_collected_call, all_collected_call, pending_externals_call, last_offsets_call, retain_call, set_from_call, increment_call, drop_call, set_skip_call, set_processed_call, taken_call};

use anchors_cache::AnchorsCacheTransaction;
use range_rules::ExternalsRangeReaderState;
use reader_rules::{ExternalsReader, ExternalsReaderState, PartitionTest};
use refusals::Refusal;

mod partitions;
mod ranges;

// Question 5 of a reader's state; one that passes it has a slot for each of its ranges.
#[tactic(auto, using(crate::proofs::Numbers::slots))]
fn check_state(state: &ExternalsReaderState) -> Result<(), Refusal>
    ensures { (number result ≡ state_number state.now) × (0 ≡ number result → state.now.len ≤ max_ranges) }
{
    externals_reader::check_lent_state(state)
}

// The ranges that the reader holds, where its state passes question 5.
#[tactic(auto, using(refusals::proofs::Laws::handed_on))]
fn held_of(state: &ExternalsReaderState) -> Result<&[ExternalsRangeReaderState], Refusal>
    ensures number { number result ≡ state_number state.now }
    ensures held { IfOk result (λ held. held.now ≡ held_ranges state.now) }
    ensures few { IfOk result (λ held. (length held.now ≡ state.now.len) × (state.now.len ≤ max_ranges)) }
{
    check_state(state)?;
    Ok(&state.ranges[..state.len])
}

// The last range takes over each current offset that is above every processed one, and ranges at their end are fully
// read.
#[tactic(auto, using(crate::proofs::There::changes), unfolding(crate::specs::Calls::finalize_call))]
pub fn finalize(reader: ExternalsReader) -> Result<ExternalsReader, Refusal>
    ensures { reader_done_of reader result ≡ finalize_call reader }
{
    let state = &reader.reader_state;
    let held = held_of(state)?;
    let len = state.len;
    let partitions = state.by_partitions;
    if !ranges::every_range(PartitionTest::InRange, partitions, held) {
        return Err(Refusal::NotThere);
    }
    let Some(last) = ranges::last_range(held) else {
        return Ok(reader);
    };
    let mut next = state.ranges;
    next[len - 1] = ranges::raised_range(last, partitions, held);
    ranges::mark_ranges(&mut next[..len]);
    Ok(ranges::with_ranges(reader, next, len))
}

#[tactic(auto, using(anchors_cache::proofs::Refused::flag_refused, range_reader::proofs::Numbers::questions), unfolding(crate::specs::Calls::limit_reached_call, reader_rules::specs::State::settled_number, anchors_cache::specs::Calls::flag_answer))]
pub fn open_ranges_limit_reached(reader: ExternalsReader) -> Result<bool, Refusal>
    ensures { flag_answer_of result ≡ limit_reached_call reader }
{
    let params = reader.msgs_exec_params;
    externals_reader::check_settings(reader.buffer_limits_by_partitions, params.open_ranges_limit)?;
    check_state(&reader.reader_state)?;
    Ok(externals_reader::open_ranges_limit(params) <= reader.reader_state.len)
}

#[tactic(auto, using(anchors_cache::proofs::Refused::flag_refused), unfolding(crate::specs::Calls::non_zero_offset_call, anchors_cache::specs::Calls::flag_answer))]
pub fn has_non_zero_processed_offset(reader: ExternalsReader) -> Result<bool, Refusal>
    ensures { flag_answer_of result ≡ non_zero_offset_call reader }
{
    let state = &reader.reader_state;
    let held = held_of(state)?;
    Ok(!ranges::every_range(PartitionTest::Unprocessed, state.by_partitions, held))
}

// A partition that is missing in the reader or in the last range counts as reached.
#[tactic(auto, using(anchors_cache::proofs::Refused::flag_refused), unfolding(crate::specs::Calls::offset_reached_call, anchors_cache::specs::Calls::flag_answer))]
pub fn last_range_offset_reached(reader: ExternalsReader, par_id: u8) -> Result<bool, Refusal>
    ensures { flag_answer_of result ≡ offset_reached_call par_id reader }
{
    let state = &reader.reader_state;
    let held = held_of(state)?;
    let Some(p) = partitions::partition_at(&state.by_partitions, par_id) else {
        return Ok(true);
    };
    let Some(x) = ranges::last_record(held, par_id) else {
        return Ok(true);
    };
    Ok(partitions::meets(PartitionTest::Reached, p, x))
}

#[tactic(auto, using(anchors_cache::proofs::Refused::flag_refused, crate::proofs::Numbers::number_5), unfolding(crate::specs::Calls::offsets_reached_call, anchors_cache::specs::Calls::flag_answer))]
pub fn last_range_offsets_reached_in_all_partitions(
    reader: ExternalsReader,
) -> Result<bool, Refusal>
    ensures { flag_answer_of result ≡ offsets_reached_call reader }
{
    let state = &reader.reader_state;
    let partitions = state.by_partitions;
    let last = ranges::last_only(held_of(state)?);
    if !ranges::every_range(PartitionTest::InReader, partitions, last) {
        return Err(Refusal::NotThere);
    }
    Ok(ranges::every_range(PartitionTest::Reached, partitions, last))
}

#[tactic(auto, using(anchors_cache::proofs::Refused::on_refused, crate::proofs::Numbers::partitions_done), unfolding(crate::specs::Calls::count_call, crate::specs::Calls::partitions_answer))]
pub fn count_messages_in_buffers_by_partitions(
    reader: ExternalsReader,
) -> Result<[Option<u32>; 8], Refusal>
    ensures { by_partitions_of result ≡ count_call reader }
{
    let state = &reader.reader_state;
    Ok(ranges::by_partitions(held_of(state)?, false))
}

#[tactic(auto, using(anchors_cache::proofs::Refused::flag_refused), unfolding(crate::specs::Calls::has_messages_call, anchors_cache::specs::Calls::flag_answer))]
pub fn has_messages_in_buffers(reader: ExternalsReader) -> Result<bool, Refusal>
    ensures { flag_answer_of result ≡ has_messages_call reader }
{
    let state = &reader.reader_state;
    let held = held_of(state)?;
    Ok(!ranges::every_range(PartitionTest::Empty, state.by_partitions, held))
}

#[tactic(auto, using(anchors_cache::proofs::Refused::flag_refused), unfolding(crate::specs::Calls::not_fully_read_call, anchors_cache::specs::Calls::flag_answer))]
pub fn has_not_fully_read_ranges(reader: ExternalsReader) -> Result<bool, Refusal>
    ensures { flag_answer_of result ≡ not_fully_read_call reader }
{
    check_state(&reader.reader_state)?;
    Ok(!reader.all_ranges_fully_read)
}

#[tactic(auto, using(anchors_cache::proofs::Refused::flag_refused), unfolding(crate::specs::Calls::read_and_collected_call, anchors_cache::specs::Calls::flag_answer))]
pub fn all_ranges_read_and_collected(reader: ExternalsReader) -> Result<bool, Refusal>
    ensures { flag_answer_of result ≡ read_and_collected_call reader }
{
    let state = &reader.reader_state;
    let held = held_of(state)?;
    Ok(
        reader.all_ranges_fully_read
            && ranges::every_range(PartitionTest::Empty, state.by_partitions, held),
    )
}

#[tactic(auto, using(anchors_cache::proofs::Refused::flag_refused), unfolding(crate::specs::Calls::check_read_and_collected_call, anchors_cache::specs::Calls::flag_answer))]
pub fn check_all_ranges_read_and_collected(reader: ExternalsReader) -> Result<bool, Refusal>
    ensures { flag_answer_of result ≡ check_read_and_collected_call reader }
{
    let state = &reader.reader_state;
    let held = held_of(state)?;
    Ok(
        ranges::all_fully_read(held)
            && ranges::every_range(PartitionTest::Empty, state.by_partitions, held),
    )
}

#[tactic(auto, using(anchors_cache::proofs::Refused::flag_refused), unfolding(crate::specs::Calls::all_collected_call, anchors_cache::specs::Calls::flag_answer))]
pub fn all_read_externals_collected(reader: ExternalsReader) -> Result<bool, Refusal>
    ensures { flag_answer_of result ≡ all_collected_call reader }
{
    let state = &reader.reader_state;
    let held = held_of(state)?;
    Ok(ranges::every_range(PartitionTest::Collected, state.by_partitions, held))
}

// Question 5 is asked of the reader, then of the cache.
#[tactic(auto, using(crate::proofs::Numbers::asked_first), unfolding(crate::specs::Calls::pending_externals_call))]
pub fn has_pending_externals(
    tables: &[u8],
    t: AnchorsCacheTransaction,
    reader: ExternalsReader,
) -> Result<bool, Refusal>
    ensures { flag_answer_of result ≡ pending_externals_call tables.now t reader }
{
    check_state(&reader.reader_state)?;
    anchors_cache::has_pending_externals(tables, t)
}

#[tactic(auto, using(anchors_cache::proofs::Refused::on_refused, crate::proofs::Numbers::partitions_done), unfolding(crate::specs::Calls::last_offsets_call, crate::specs::Calls::partitions_answer))]
pub fn get_last_range_state_offsets_by_partitions(
    reader: ExternalsReader,
) -> Result<[Option<u32>; 8], Refusal>
    ensures { by_partitions_of result ≡ last_offsets_call reader }
{
    let state = &reader.reader_state;
    let last = ranges::last_only(held_of(state)?);
    Ok(ranges::by_partitions(last, true))
}

// Where the block has no range yet, the all-read mark is cleared, so that one is made and read.
#[tactic(auto, using(crate::proofs::There::changes), unfolding(crate::specs::Calls::retain_call))]
pub fn retain_only_last_range_state(reader: ExternalsReader) -> Result<ExternalsReader, Refusal>
    ensures { reader_done_of reader result ≡ retain_call reader }
{
    let state = &reader.reader_state;
    let held = held_of(state)?;
    let last = ranges::last_range(held).ok_or(Refusal::NotThere)?;
    let mut table = state.ranges;
    table[0] = last;
    let next = ranges::with_ranges(reader, table, 1);
    if reader.block_seqno <= last.seqno {
        return Ok(next);
    }
    Ok(ExternalsReader {
        all_ranges_fully_read: false,
        ..next
    })
}

#[tactic(auto, using(crate::proofs::There::changes), unfolding(crate::specs::Calls::set_from_call))]
pub fn set_from_to_current_position_in_last_range_state(
    reader: ExternalsReader,
) -> Result<ExternalsReader, Refusal>
    ensures { reader_done_of reader result ≡ set_from_call reader }
{
    let state = &reader.reader_state;
    let held = held_of(state)?;
    let mut last = ranges::last_range(held).ok_or(Refusal::NotThere)?;
    last.from = last.current_position;
    Ok(ranges::with_range(reader, state.len - 1, last))
}

#[tactic(auto, using(crate::proofs::There::changes), unfolding(crate::specs::Calls::increment_call))]
pub fn increment_curr_processed_offset(
    reader: ExternalsReader,
    par_id: u8,
) -> Result<ExternalsReader, Refusal>
    ensures { reader_done_of reader result ≡ increment_call par_id reader }
{
    let state = &reader.reader_state;
    check_state(state)?;
    let mut p = partitions::partition_at(&state.by_partitions, par_id).ok_or(Refusal::NotThere)?;
    if p.curr_processed_offset == u32::MAX {
        return Err(Refusal::OutOfCount);
    }
    p.curr_processed_offset += 1;
    Ok(partitions::with_partition(reader, par_id, p))
}

// Drops the current offset, and the offsets in the last range.
#[tactic(auto, using(crate::proofs::There::changes), unfolding(crate::specs::Calls::drop_call))]
pub fn drop_processing_offset(
    reader: ExternalsReader,
    par_id: u8,
    drop_skip_offset: bool,
) -> Result<ExternalsReader, Refusal>
    ensures { reader_done_of reader result ≡ drop_call par_id drop_skip_offset reader }
{
    let state = &reader.reader_state;
    let held = held_of(state)?;
    let mut p = partitions::partition_at(&state.by_partitions, par_id).ok_or(Refusal::NotThere)?;
    let x = ranges::last_record(held, par_id).ok_or(Refusal::NotThere)?;
    let at = rows::last_place(state.len);
    let next = ranges::with_record_of(reader, at, par_id, partitions::dropped(x, drop_skip_offset));
    p.curr_processed_offset = 0;
    Ok(partitions::with_partition(next, par_id, p))
}

// Only a greater offset is set: on a refill the processed one may not be reached yet.
#[tactic(auto, using(crate::proofs::There::changes), unfolding(crate::specs::Calls::set_skip_call))]
pub fn set_skip_processed_offset_to_current(
    reader: ExternalsReader,
    par_id: u8,
) -> Result<ExternalsReader, Refusal>
    ensures { reader_done_of reader result ≡ set_skip_call par_id reader }
{
    let state = &reader.reader_state;
    let held = held_of(state)?;
    let p = partitions::partition_at(&state.by_partitions, par_id).ok_or(Refusal::NotThere)?;
    let x = ranges::last_record(held, par_id).ok_or(Refusal::NotThere)?;
    let at = rows::last_place(state.len);
    let y = partitions::skip_raised(x, p.curr_processed_offset);
    Ok(ranges::with_record_of(reader, at, par_id, y))
}

#[tactic(auto, using(crate::proofs::There::changes), unfolding(crate::specs::Calls::set_processed_call))]
pub fn set_processed_to_current_position(
    reader: ExternalsReader,
    par_id: u8,
) -> Result<ExternalsReader, Refusal>
    ensures { reader_done_of reader result ≡ set_processed_call par_id reader }
{
    let state = &reader.reader_state;
    let held = held_of(state)?;
    let mut p = partitions::partition_at(&state.by_partitions, par_id).ok_or(Refusal::NotThere)?;
    let last = ranges::last_range(held).ok_or(Refusal::NotThere)?;
    p.processed_to = last.current_position;
    Ok(partitions::with_partition(reader, par_id, p))
}

// The host's report: how many messages it took of a range's partition.
#[tactic(auto, using(crate::proofs::There::changes), unfolding(crate::specs::Calls::taken_call))]
pub fn messages_taken(
    reader: ExternalsReader,
    seqno: u32,
    par_id: u8,
    taken: u32,
) -> Result<ExternalsReader, Refusal>
    ensures { reader_done_of reader result ≡ taken_call seqno par_id taken reader }
{
    let state = &reader.reader_state;
    let held = held_of(state)?;
    let at = ranges::place_of(held, seqno).ok_or(Refusal::NotThere)?;
    let mut x = ranges::record_of(held, at, par_id).ok_or(Refusal::NotThere)?;
    if x.count < taken {
        return Err(Refusal::OutOfCount);
    }
    x.count -= taken;
    Ok(ranges::with_record_of(reader, at, par_id, x))
}
