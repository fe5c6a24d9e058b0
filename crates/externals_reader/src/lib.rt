// The externals reader: its ranges, its partitions, and the read of all ranges.
// A refused call answers why and leaves reader, transaction and every output byte as at entry.
// Arrays of a struct go to another one by a local: a field that is an array can't be moved out beside the others
// (tried: the borrow checker refuses it).
#![tactic(auto)]

ghost use Rattle.std.specs.Prelude.{map, length, false, ◌+◌, ◌≤◌, ◌<◌, ◌^◌, ◌≡◌, [], Ok};
ghost use Rattle.cache_rules.specs.Rules.{max_history};
ghost use Rattle.anchors_cache.specs.Tables.{tables_bytes};
ghost use Rattle.reader_rules.specs.State.{state_number, settings_number, open_ranges_limit_of, with_state, with_mark};
ghost use Rattle.refusals.specs.Refusals.{number};
ghost use Rattle.externals_reader.specs.Answers.{reader_done_of, partition_ids_of, next_range_of, read_all_answer_of};
ghost use Rattle.externals_reader.specs.Calls.{handed_in, new_call, reset_call, drop_last_call, set_limits_call, partition_ids_call, next_range_call, imported_in, unchanged, reader_after, read_all_call};
ghost use Rattle.reader_rules.specs.Rules.{fixed_of, processed_of};
ghost use Rattle.externals_reader.specs.Locals.{read_answered};
ghost use Rattle.externals_reader.specs.Ready.{ranges_told};

use anchors_cache::{AnchorsCache, AnchorsCacheTransaction};
use ext_types::ChainTime;
use range_reader::Lent;
use range_rules::{ExternalsRangeReaderState, NO_COUNTS, ProcessedTo, ReadCounts};
use reader_rules::{
    ExternalsPartitionReaderState, ExternalsReader, ExternalsReaderState, Fixed,
    GetNextMessageGroupMode, MAX_OPEN_RANGES, MAX_RANGES, MsgsExecutionParams,
};
use refusals::Refusal;
use shard_ident::ShardIdent;

mod next;
mod questions;
mod ranges;
mod turns;

// `free` is what the last range read reported; `used` bytes of the output hold the entries.
#[derive(Clone, Copy, Debug, PartialEq, Eq)]
pub struct ReadIntoBuffers {
    pub free: Option<u16>,
    pub used: usize,
    pub counts: ReadCounts,
    pub reader: ExternalsReader,
    pub state: AnchorsCacheTransaction,
}

// What the turns so far have come to: the pops, the bytes used, whether every range so far is fully read, whether a
// full buffer stopped the read, and what the last range read reported.
#[derive(Clone, Copy, Debug, PartialEq, Eq)]
pub struct SoFar {
    pub pops: usize,
    pub used: usize,
    pub all_read: bool,
    pub stopped: bool,
    pub free: Option<u16>,
    pub last: Option<ChainTime>,
    pub counts: ReadCounts,
}

// The same with the ranges as they are now.
#[derive(Clone, Copy, Debug, PartialEq, Eq)]
pub struct RangesRead {
    pub so_far: SoFar,
    pub ranges: [ExternalsRangeReaderState; MAX_RANGES],
    pub len: usize,
}

// A range after its turn, and what the read has come to with it.
#[derive(Clone, Copy, Debug, PartialEq, Eq)]
pub struct TurnDone {
    pub so_far: SoFar,
    pub range: ExternalsRangeReaderState,
}

// Question 5 of a reader's state.
pub fn check_state(state: ExternalsReaderState) -> Result<(), Refusal>
    ensures { number result ≡ state_number state }
{
    check_lent_state(&state)
}

// The same of a state that is lent: a caller that only asks copies no 3.4 KB.
#[tactic(auto, using(std::proofs::lemmas::Bool::Decides::nat_tests), unfolding(reader_rules::specs::State::state_number))]
pub fn check_lent_state(state: &ExternalsReaderState) -> Result<(), Refusal>
    ensures { number result ≡ state_number state.now }
{
    questions::check_ranges(&state.ranges, state.len)
}

// Question 4, of the limits and of the open-ranges limit.
#[tactic(auto, using(range_reader::proofs::Numbers::questions, std::proofs::lemmas::Bool::Decides::nat_tests), unfolding(reader_rules::specs::State::settings_number))]
pub fn check_settings(limits: [u16; 8], open_ranges_limit: u8) -> Result<(), Refusal>
    ensures { number result ≡ settings_number limits open_ranges_limit }
{
    messages_buffer::check_limits(limits)?;
    if MAX_OPEN_RANGES < open_ranges_limit {
        return Err(Refusal::LimitTooHigh);
    }
    Ok(())
}

// The limit that counts, as the Rust's `open_ranges_limit()`: never below 2.
pub fn open_ranges_limit(params: MsgsExecutionParams) -> usize
    ensures { result ≡ open_ranges_limit_of params }
{
    usize::from(params.open_ranges_limit).max(2)
}

fn with_state(reader: ExternalsReader, state: ExternalsReaderState) -> ExternalsReader
    ensures { result ≡ with_state reader state }
{
    ExternalsReader {
        reader_state: state,
        ..reader
    }
}

// `new` over what a reader holds, whatever its mark.
#[tactic(auto, using(crate::proofs::Refused::change_done, crate::proofs::Refused::change_refused, crate::proofs::Laws::reader_few), unfolding(crate::specs::Calls::new_call))]
pub fn renew(reader: ExternalsReader) -> Result<ExternalsReader, Refusal>
    ensures { let handed = with_mark reader false in
        reader_done_of handed result ≡ new_call handed }
{
    let mut next = reader;
    next.all_ranges_fully_read = false;
    questions::check_reader(&next)?;
    ranges::entered(next.buffer_limits_by_partitions, &mut next.reader_state);
    Ok(next)
}

// A reader over a state: each partition that has a limit gets a record, if it has none, and a range is fully read
// exactly where its position is its "to".
pub fn new(
    for_shard_id: ShardIdent,
    block_seqno: u32,
    next_chain_time: ChainTime,
    msgs_exec_params: MsgsExecutionParams,
    buffer_limits_by_partitions: [u16; 8],
    reader_state: ExternalsReaderState,
) -> Result<ExternalsReader, Refusal>
    ensures { let handed = handed_in for_shard_id block_seqno next_chain_time msgs_exec_params buffer_limits_by_partitions reader_state in
        reader_done_of handed result ≡ new_call handed }
{
    renew(ExternalsReader {
        for_shard_id,
        block_seqno,
        next_chain_time,
        msgs_exec_params,
        buffer_limits_by_partitions,
        reader_state,
        all_ranges_fully_read: false,
    })
}

#[tactic(auto, using(crate::proofs::Refused::change_done, crate::proofs::Refused::change_refused), unfolding(crate::specs::Calls::reset_call))]
pub fn reset_read_state(reader: ExternalsReader) -> Result<ExternalsReader, Refusal>
    ensures { reader_done_of reader result ≡ reset_call reader }
{
    check_lent_state(&reader.reader_state)?;
    Ok(ExternalsReader {
        all_ranges_fully_read: false,
        ..reader
    })
}

#[tactic(auto, using(crate::proofs::Refused::change_done, crate::proofs::Refused::change_refused), unfolding(crate::specs::Calls::drop_last_call))]
pub fn drop_last_read_to_anchor_chain_time(
    reader: ExternalsReader,
) -> Result<ExternalsReader, Refusal>
    ensures { reader_done_of reader result ≡ drop_last_call reader }
{
    check_lent_state(&reader.reader_state)?;
    Ok(with_state(reader, ranges::with_last(reader.reader_state, None)))
}

#[tactic(auto, using(range_reader::proofs::Numbers::questions, crate::proofs::Refused::change_done, crate::proofs::Refused::change_refused), unfolding(crate::specs::Calls::set_limits_call, reader_rules::specs::State::settled_number))]
pub fn set_buffer_limits_by_partition(
    reader: ExternalsReader,
    limits: [u16; 8],
) -> Result<ExternalsReader, Refusal>
    ensures { reader_done_of reader result ≡ set_limits_call reader limits }
{
    check_settings(limits, reader.msgs_exec_params.open_ranges_limit)?;
    check_lent_state(&reader.reader_state)?;
    Ok(ExternalsReader {
        buffer_limits_by_partitions: limits,
        ..reader
    })
}

// Which partitions there are.
#[tactic(auto, using(crate::proofs::Refused::ids_refused), unfolding(crate::specs::Calls::partition_ids_call))]
pub fn get_partition_ids(reader: ExternalsReader) -> Result<[bool; 8], Refusal>
    ensures { partition_ids_of result ≡ partition_ids_call reader }
{
    check_lent_state(&reader.reader_state)?;
    Ok(ranges::present_in(reader.reader_state.by_partitions))
}

// The range that a block would append: it begins where the last one ends.
#[tactic(auto, using(crate::proofs::Refused::next_refused, crate::proofs::Laws::state_few), unfolding(crate::specs::Calls::next_range_call))]
pub fn create_next_externals_range_state(
    reader: ExternalsReader,
) -> Result<ExternalsRangeReaderState, Refusal>
    ensures { next_range_of result ≡ next_range_call reader }
{
    let state = &reader.reader_state;
    check_lent_state(state)?;
    let last = next::last_range(&state.ranges, state.len);
    Ok(next::next_range(
        reader.block_seqno,
        reader.next_chain_time,
        state.by_partitions,
        last,
    ))
}

// The processed positions, as a range's read takes them.
pub fn processed_in(parts: [ExternalsPartitionReaderState; 8]) -> [ProcessedTo; 8]
    ensures { result ≡ map processed_of parts }
{
    parts.map(ranges::processed_of)
}

fn fixed_at_entry(
    tables: &[u8],
    cache: AnchorsCache,
    reader: ExternalsReader,
    mode: GetNextMessageGroupMode,
    room: usize,
) -> Fixed
    requires { (cache.history_first + cache.history_len ≤ max_history) × (tables_bytes ≤ length tables.now) }
    ensures { (result ≡ fixed_of reader mode (imported_in tables.now cache) room) × (room < 2 ^ 64) }
{
    let limits = reader.buffer_limits_by_partitions;
    let by_partitions = reader.reader_state.by_partitions;
    Fixed {
        shard: reader.for_shard_id,
        block_seqno: reader.block_seqno,
        next_chain_time: reader.next_chain_time,
        params: reader.msgs_exec_params,
        limits,
        mode,
        by_partitions,
        processed: processed_in(by_partitions),
        imported: ranges::last_imported(tables, cache),
        room,
    }
}

// The answer of a call that does nothing.
fn unread(reader: ExternalsReader, t: AnchorsCacheTransaction) -> ReadIntoBuffers
    ensures { read_all_answer_of reader t (Ok result) ≡ (unchanged 0 reader t []).answer }
{
    ReadIntoBuffers {
        free: None,
        used: 0,
        counts: NO_COUNTS,
        reader,
        state: t,
    }
}

// What the reader is after the ranges were read: the saved chain time changes only if the last range read saw one.
fn reader_after(reader: ExternalsReader, r: RangesRead) -> ExternalsReader
    ensures { result ≡ reader_after reader (ranges_told r) }
{
    let ranges = r.ranges;
    let old = reader.reader_state;
    let last = turns::time_saved(r.so_far.last, old.last_read_to_anchor_chain_time);
    ExternalsReader {
        reader_state: ExternalsReaderState {
            ranges,
            len: r.len,
            last_read_to_anchor_chain_time: last,
            ..old
        },
        all_ranges_fully_read: r.so_far.all_read,
        ..reader
    }
}

// The answer of a read that was not refused.
// `unwrap_or` drops a refusal (no plainer): the rules speak of the transaction after the pops; refused pops leave it.
fn answer_of(
    lent: Lent<'_>,
    t: AnchorsCacheTransaction,
    reader: ExternalsReader,
    r: RangesRead,
) -> ReadIntoBuffers
    ensures { read_all_answer_of reader t (Ok result) ≡ read_answered lent.entry.tables.now lent.entry.area.now t reader (ranges_told r) }
{
    let so_far = r.so_far;
    ReadIntoBuffers {
        free: so_far.free,
        used: so_far.used,
        counts: so_far.counts,
        reader: reader_after(reader, r),
        state: anchors_cache::pop_fronts(lent.tables, lent.area, t, so_far.pops).unwrap_or(t),
    }
}

// The read of all ranges. It runs twice: the first run writes nothing and decides whether it is refused, so that a
// refusal in a later range leaves the entries of the first unwritten. Where that one used no byte there is nothing to
// write, and it is the answer.
pub fn read_into_buffers(
    lent: Lent<'_>,
    t: AnchorsCacheTransaction,
    reader: ExternalsReader,
    mode: GetNextMessageGroupMode,
    out: &mut [u8],
) -> Result<ReadIntoBuffers, Refusal>
    ensures { record { answer = read_all_answer_of reader t result; out = out.new } ≡ read_all_call lent.entry.tables.now lent.entry.area.now t lent.entry.routes.now reader mode out.old }
{
    questions::check_read(lent, t, reader)?;
    if reader.all_ranges_fully_read {
        return Ok(unread(reader, t));
    }
    let x = fixed_at_entry(lent.tables, t.cache, reader, mode, out.len());
    let start = reader.reader_state;
    let checked = turns::ranges_read(lent, t, x, start, false, &mut *out)?;
    if checked.so_far.used == 0 {
        return Ok(answer_of(lent, t, reader, checked));
    }
    let r = turns::ranges_read(lent, t, x, start, true, &mut *out)?;
    Ok(answer_of(lent, t, reader, r))
}
