// The calls for a host in C or Rust, each under its plain name: what a call changes it is lent by reference, what it
// only looks at it takes by value.
// A refused call answers the number and leaves every state and lent byte as at entry.
// Structs with a number or a mark, calls that answer a byte, flags for modes, arrays with a `len`, structs beside the
// core's own: the C interface.
#![tactic(auto)]

ghost use Rattle.std.specs.Prelude.{◌≡◌, length};
ghost use Rattle.shard_ident.specs.Shard.{contains_message};
ghost use Rattle.router.specs.Router.{routes_number, get_partition};
ghost use Rattle.messages_buffer.specs.Fullness.{fill_state};
ghost use Rattle.anchors_cache.specs.Answers.{done_of};
ghost use Rattle.anchors_cache.specs.Calls.{pop_call, trim_call, clear_call, open_call, commit_call, rollback_call, close_call, last_info_call, info_at_ct_call, get_call, pending_call, pending_in_range_call, closed_transaction};
ghost use Rattle.reader_rules.specs.declared.ExternalsReader.{ExternalsReader as CoreReader};
ghost use Rattle.externals_reader.specs.Answers.{reader_done_of};
ghost use Rattle.externals_reader.specs.Calls.{reset_call, drop_last_call, partition_ids_call, next_range_call};
ghost use Rattle.reader_offsets.specs.Calls.{finalize_call, limit_reached_call, non_zero_offset_call, offset_reached_call, offsets_reached_call, count_call, has_messages_call, not_fully_read_call, read_and_collected_call, check_read_and_collected_call, all_collected_call, last_offsets_call, retain_call, set_from_call, increment_call, drop_call, set_skip_call, set_processed_call, taken_call, pending_externals_call};
ghost use Rattle.host.specs.Shapes.{reader_of, anchor_answer, info_answer};
ghost use Rattle.host.specs.Calls.{pop_shown, trim_shown, add_shown, entry_shown, flag_shown, ours_shown, partition_shown, fill_shown, partition_ids_shown, next_range_shown, by_partitions_shown, reader_shown, on_reader, limits_set, new_shown, read_all_shown, read_all, read_range_shown, read_range};

use anchors_cache::{AnchorInfo, AnchorsCacheTransaction, CachedAnchor, MempoolAnchor};
use cache_rules::AUTHOR_BYTES;
use ext_types::{ChainTime, ExternalKey, Seconds};
use range_reader::Lent;
use range_rules::{ExternalsRangeReaderState, ProcessedTo, ReadCounts};
use reader_rules::{
    ExternalsPartitionReaderState, ExternalsReader, MAX_RANGES, MsgsExecutionParams,
};
use refusals::Refusal;
use shard_ident::ShardIdent;

mod shapes;

// Number 0 and the fewest free places of a buffer of the range, or the number of the question that was answered "no".
#[repr(C)]
#[derive(Clone, Copy)]
pub struct FillState {
    pub number: u8,
    pub free: u16,
}

// A chain time, where there is one.
#[repr(C)]
#[derive(Clone, Copy)]
pub struct SavedTime {
    pub present: bool,
    pub time: ChainTime,
}

// The reader's state, with the saved chain time as a mark and a time.
#[repr(C)]
#[derive(Clone, Copy)]
pub struct ReaderState {
    pub ranges: [ExternalsRangeReaderState; MAX_RANGES],
    pub len: usize,
    pub by_partitions: [ExternalsPartitionReaderState; 8],
    pub last_read_to_anchor_chain_time: SavedTime,
}

#[repr(C)]
#[derive(Clone, Copy)]
pub struct Reader {
    pub for_shard_id: ShardIdent,
    pub block_seqno: u32,
    pub next_chain_time: ChainTime,
    pub msgs_exec_params: MsgsExecutionParams,
    pub buffer_limits_by_partitions: [u16; 8],
    pub reader_state: ReaderState,
    pub all_ranges_fully_read: bool,
}

// What a read of all ranges changes.
#[repr(C)]
#[derive(Clone, Copy)]
pub struct Externals {
    pub transaction: AnchorsCacheTransaction,
    pub reader: Reader,
}

// What a read of one range changes.
#[repr(C)]
#[derive(Clone, Copy)]
pub struct RangeAndCache {
    pub transaction: AnchorsCacheTransaction,
    pub range: ExternalsRangeReaderState,
}

// What a read of one range is told beside the routes. `to_previous`: only to the end that was read to before.
#[repr(C)]
#[derive(Clone, Copy)]
pub struct RangeSettings {
    pub shard: ShardIdent,
    pub limits: [u16; 8],
    pub processed: [ProcessedTo; 8],
    pub timeout: Seconds,
    pub to_previous: bool,
}

// A history entry with its author.
#[repr(C)]
#[derive(Clone, Copy)]
pub struct HistoryEntry {
    pub info: AnchorInfo,
    pub author: [u8; AUTHOR_BYTES],
}

#[repr(C)]
#[derive(Clone, Copy)]
pub struct BufferLimits {
    pub by_partitions: [u16; 8],
}

// Answers: the number, and with 0 the values that the call tells.
#[repr(C)]
#[derive(Clone, Copy)]
pub struct FlagAnswer {
    pub number: u8,
    pub flag: bool,
}

#[repr(C)]
#[derive(Clone, Copy)]
pub struct AnchorShown {
    pub number: u8,
    pub found: bool,
    pub anchor: CachedAnchor,
    pub author: [u8; AUTHOR_BYTES],
}

#[repr(C)]
#[derive(Clone, Copy)]
pub struct InfoShown {
    pub number: u8,
    pub found: bool,
    pub info: AnchorInfo,
    pub author: [u8; AUTHOR_BYTES],
}

#[repr(C)]
#[derive(Clone, Copy)]
pub struct PartitionShown {
    pub number: u8,
    pub partition: u8,
}

// The free places that the last range read reported; not present where none was read.
#[repr(C)]
#[derive(Clone, Copy)]
pub struct Free {
    pub present: bool,
    pub places: u16,
}

#[repr(C)]
#[derive(Clone, Copy)]
pub struct AllAnswer {
    pub number: u8,
    pub free: Free,
    pub used: usize,
    pub counts: ReadCounts,
}

#[repr(C)]
#[derive(Clone, Copy)]
pub struct RangeAnswer {
    pub number: u8,
    pub free: u16,
    pub last_chain_time: SavedTime,
    pub pops: usize,
    pub used: usize,
    pub counts: ReadCounts,
}

// Which partitions there are.
#[repr(C)]
#[derive(Clone, Copy)]
pub struct PartitionIds {
    pub number: u8,
    pub present: [bool; 8],
}

// The range that a block would append.
#[repr(C)]
#[derive(Clone, Copy)]
pub struct NextRange {
    pub number: u8,
    pub range: ExternalsRangeReaderState,
}

// A number for each partition that is present, and 0 for the others.
#[repr(C)]
#[derive(Clone, Copy)]
pub struct ByPartitions {
    pub number: u8,
    pub values: [u32; 8],
    pub present: [bool; 8],
}

// The number of a call on the transaction by value; where it is done, what it left is stored.
fn stored(done: Result<AnchorsCacheTransaction, Refusal>, t: &mut AnchorsCacheTransaction) -> u8
    ensures { (result ≡ (done_of t.old done).number) × (t.new ≡ (done_of t.old done).state) }
{
    if let Ok(next) = done {
        *t = next;
    }
    refusals::number(done)
}

// The same of a call on the reader. Which reader the call was handed counts nowhere: a refused one leaves the host's.
#[tactic(auto, using(anchors_cache::proofs::Refused::on_refusal, refusals::proofs::Laws::refused_is_not_done), unfolding(crate::specs::Calls::reader_shown, crate::specs::Shapes::left_reader))]
fn held(done: Result<ExternalsReader, Refusal>, reader: &mut Reader) -> u8
    ensures { (handed : CoreReader)
        → (result ≡ (reader_shown reader.old (reader_done_of handed done)).number)
        × (reader.new ≡ (reader_shown reader.old (reader_done_of handed done)).reader) }
{
    if let Ok(next) = done {
        reader.hold(next);
    }
    refusals::number(done)
}

// A call on the host's reader in the core's shape.
fn changed<F: FnOnce(ExternalsReader) -> Result<ExternalsReader, Refusal>>(
    reader: &mut Reader,
    call: F,
) -> u8
    requires { F.pre call (reader_of reader.old) }
    ensures { (done : _) × F.post call (reader_of reader.old) done
        × (result ≡ (reader_shown reader.old (reader_done_of (reader_of reader.old) done)).number)
        × (reader.new ≡ (reader_shown reader.old (reader_done_of (reader_of reader.old) done)).reader) }
{
    held(call((*reader).into()), reader)
}

// ---- the cache
#[unsafe(no_mangle)]
pub extern "C" fn ext_new_transaction() -> AnchorsCacheTransaction
    ensures { result ≡ closed_transaction }
{
    anchors_cache::new()
}

#[unsafe(no_mangle)]
pub extern "C" fn ext_open(t: &mut AnchorsCacheTransaction, tables: &[u8], area: &[u8]) -> u8
    ensures { (result ≡ (open_call (length area.now) tables.now t.old).number)
        × (t.new ≡ (open_call (length area.now) tables.now t.old).state) }
{
    stored(anchors_cache::open(tables, area, *t), t)
}

#[unsafe(no_mangle)]
pub extern "C" fn ext_commit(t: &mut AnchorsCacheTransaction, tables: &[u8], area: &[u8]) -> u8
    ensures { (result ≡ (commit_call (length area.now) tables.now t.old).number)
        × (t.new ≡ (commit_call (length area.now) tables.now t.old).state) }
{
    stored(anchors_cache::commit(tables, area, *t), t)
}

#[unsafe(no_mangle)]
pub extern "C" fn ext_rollback(t: &mut AnchorsCacheTransaction, tables: &[u8], area: &[u8]) -> u8
    ensures { (result ≡ (rollback_call (length area.now) tables.now t.old).number)
        × (t.new ≡ (rollback_call (length area.now) tables.now t.old).state) }
{
    stored(anchors_cache::rollback(tables, area, *t), t)
}

#[unsafe(no_mangle)]
pub extern "C" fn ext_close(t: &mut AnchorsCacheTransaction, tables: &[u8], area: &[u8]) -> u8
    ensures { (result ≡ (close_call (length area.now) tables.now t.old).number)
        × (t.new ≡ (close_call (length area.now) tables.now t.old).state) }
{
    stored(anchors_cache::close(tables, area, *t), t)
}

#[unsafe(no_mangle)]
pub extern "C" fn ext_clear(t: &mut AnchorsCacheTransaction, tables: &[u8], area: &[u8]) -> u8
    ensures { (result ≡ (clear_call (length area.now) tables.now t.old).number)
        × (t.new ≡ (clear_call (length area.now) tables.now t.old).state) }
{
    stored(anchors_cache::clear(tables, area, *t), t)
}

#[tactic(auto, unfolding(crate::specs::Calls::pop_shown))]
#[unsafe(no_mangle)]
pub extern "C" fn ext_pop_front(
    t: &mut AnchorsCacheTransaction,
    tables: &[u8],
    area: &[u8],
) -> AnchorShown
    ensures { (result ≡ (pop_shown (pop_call (length area.now) tables.now t.old)).answer)
        × (t.new ≡ (pop_shown (pop_call (length area.now) tables.now t.old)).state) }
{
    let done = anchors_cache::pop_front(tables, area, *t);
    if let Ok(after) = done {
        *t = after.state;
    }
    done.map(|after| after.answer).into()
}

#[tactic(auto, unfolding(crate::specs::Calls::trim_shown))]
#[unsafe(no_mangle)]
pub extern "C" fn ext_remove_last_imported_above(
    t: &mut AnchorsCacheTransaction,
    tables: &[u8],
    area: &[u8],
    ct: ChainTime,
) -> InfoShown
    ensures { (result ≡ (trim_shown (trim_call (length area.now) ct.0 tables.now t.old)).answer)
        × (t.new ≡ (trim_shown (trim_call (length area.now) ct.0 tables.now t.old)).state) }
{
    let done = anchors_cache::remove_last_imported_above(tables, area, *t, ct);
    if let Ok(after) = done {
        *t = after.state;
    }
    done.map(|after| after.answer).into()
}

// An anchor to the history always, to the cache where ours is above 0.
#[tactic(auto, unfolding(crate::specs::Calls::add_shown))]
#[unsafe(no_mangle)]
pub extern "C" fn ext_add(
    t: &mut AnchorsCacheTransaction,
    tables: &mut [u8],
    area: &mut [u8],
    anchor: MempoolAnchor,
    our_exts_count: u32,
    messages: &[u8],
) -> u8
    ensures { (result ≡ (add_shown tables.old area.old anchor our_exts_count messages.now t.old).done.number)
        × (t.new ≡ (add_shown tables.old area.old anchor our_exts_count messages.now t.old).done.state)
        × (tables.new ≡ (add_shown tables.old area.old anchor our_exts_count messages.now t.old).tables)
        × (area.new ≡ (add_shown tables.old area.old anchor our_exts_count messages.now t.old).area) }
{
    let done = anchors_cache::add(tables, area, *t, anchor, our_exts_count, messages);
    stored(done, t)
}

// An entry to the history alone.
#[tactic(auto, unfolding(crate::specs::Calls::entry_shown))]
#[unsafe(no_mangle)]
pub extern "C" fn ext_add_imported_anchor_info(
    t: &mut AnchorsCacheTransaction,
    tables: &mut [u8],
    area: &[u8],
    entry: HistoryEntry,
) -> u8
    ensures { (result ≡ (entry_shown tables.old area.now entry t.old).done.number)
        × (t.new ≡ (entry_shown tables.old area.now entry t.old).done.state)
        × (tables.new ≡ (entry_shown tables.old area.now entry t.old).tables) }
{
    let done = anchors_cache::add_imported_anchor_info(tables, area, *t, entry.info, entry.author);
    stored(done, t)
}

#[unsafe(no_mangle)]
pub extern "C" fn ext_last_imported_anchor_info(
    tables: &[u8],
    t: AnchorsCacheTransaction,
) -> InfoShown
    ensures { result ≡ info_answer (last_info_call tables.now t) }
{
    anchors_cache::last_imported_anchor_info(tables, t).into()
}

#[unsafe(no_mangle)]
pub extern "C" fn ext_last_imported_anchor_info_at_ct(
    tables: &[u8],
    t: AnchorsCacheTransaction,
    ct: ChainTime,
) -> InfoShown
    ensures { result ≡ info_answer (info_at_ct_call ct.0 tables.now t) }
{
    anchors_cache::last_imported_anchor_info_at_ct(tables, t, ct).into()
}

#[unsafe(no_mangle)]
pub extern "C" fn ext_get(tables: &[u8], t: AnchorsCacheTransaction, index: usize) -> AnchorShown
    ensures { result ≡ anchor_answer (get_call index tables.now t) }
{
    anchors_cache::get(tables, t, index).into()
}

#[unsafe(no_mangle)]
pub extern "C" fn ext_cache_has_pending_externals(
    tables: &[u8],
    t: AnchorsCacheTransaction,
) -> FlagAnswer
    ensures { result ≡ flag_shown (pending_call tables.now t) }
{
    anchors_cache::has_pending_externals(tables, t).into()
}

#[unsafe(no_mangle)]
pub extern "C" fn ext_check_has_pending_externals_in_range(
    tables: &[u8],
    t: AnchorsCacheTransaction,
    up_to: ExternalKey,
) -> FlagAnswer
    ensures { result ≡ flag_shown (pending_in_range_call up_to tables.now t) }
{
    anchors_cache::check_has_pending_externals_in_range(tables, t, up_to).into()
}

// ---- whose a message is, and its partition
// Whether a message is the shard's: what the host counts as ours.
#[unsafe(no_mangle)]
pub extern "C" fn ext_contains_message(shard: ShardIdent, message: &[u8]) -> FlagAnswer
    ensures { result ≡ ours_shown (contains_message shard message.now) }
{
    shard_ident::contains_message(shard, message).into()
}

#[unsafe(no_mangle)]
pub extern "C" fn ext_check_routes(routes: &[u8]) -> u8
    ensures { result ≡ routes_number routes.now }
{
    refusals::number(router::check_routes(routes))
}

#[unsafe(no_mangle)]
pub extern "C" fn ext_get_partition(routes: &[u8], message: &[u8]) -> PartitionShown
    ensures { result ≡ partition_shown (get_partition routes.now message.now) }
{
    router::get_partition(routes, message).into()
}

// ---- the reader
// The host fills in the reader and the state that it goes on from; the call makes it ready.
#[tactic(auto, unfolding(crate::specs::Calls::new_shown))]
#[unsafe(no_mangle)]
pub extern "C" fn ext_new_reader(reader: &mut Reader) -> u8
    ensures { (result ≡ (new_shown reader.old).number) × (reader.new ≡ (new_shown reader.old).reader) }
{
    let done = externals_reader::new(
        reader.for_shard_id,
        reader.block_seqno,
        reader.next_chain_time,
        reader.msgs_exec_params,
        reader.buffer_limits_by_partitions,
        reader.reader_state.into(),
    );
    held(done, reader)
}

#[unsafe(no_mangle)]
pub extern "C" fn ext_set_buffer_limits_by_partition(
    reader: &mut Reader,
    limits: BufferLimits,
) -> u8
    ensures { (result ≡ (on_reader (limits_set limits) reader.old).number)
        × (reader.new ≡ (on_reader (limits_set limits) reader.old).reader) }
{
    changed(
        reader,
        |r| externals_reader::set_buffer_limits_by_partition(r, limits.by_partitions),
    )
}

#[unsafe(no_mangle)]
pub extern "C" fn ext_reset_read_state(reader: &mut Reader) -> u8
    ensures { (result ≡ (on_reader reset_call reader.old).number) × (reader.new ≡ (on_reader reset_call reader.old).reader) }
{
    changed(reader, externals_reader::reset_read_state)
}

#[unsafe(no_mangle)]
pub extern "C" fn ext_drop_last_read_to_anchor_chain_time(reader: &mut Reader) -> u8
    ensures { (result ≡ (on_reader drop_last_call reader.old).number) × (reader.new ≡ (on_reader drop_last_call reader.old).reader) }
{
    changed(
        reader,
        externals_reader::drop_last_read_to_anchor_chain_time,
    )
}

#[unsafe(no_mangle)]
pub extern "C" fn ext_finalize(reader: &mut Reader) -> u8
    ensures { (result ≡ (on_reader finalize_call reader.old).number) × (reader.new ≡ (on_reader finalize_call reader.old).reader) }
{
    changed(reader, reader_offsets::finalize)
}

#[unsafe(no_mangle)]
pub extern "C" fn ext_retain_only_last_range_state(reader: &mut Reader) -> u8
    ensures { (result ≡ (on_reader retain_call reader.old).number) × (reader.new ≡ (on_reader retain_call reader.old).reader) }
{
    changed(reader, reader_offsets::retain_only_last_range_state)
}

#[unsafe(no_mangle)]
pub extern "C" fn ext_set_from_to_current_position_in_last_range_state(reader: &mut Reader) -> u8
    ensures { (result ≡ (on_reader set_from_call reader.old).number) × (reader.new ≡ (on_reader set_from_call reader.old).reader) }
{
    changed(
        reader,
        reader_offsets::set_from_to_current_position_in_last_range_state,
    )
}

#[unsafe(no_mangle)]
pub extern "C" fn ext_increment_curr_processed_offset(reader: &mut Reader, par_id: u8) -> u8
    ensures { (result ≡ (on_reader (increment_call par_id) reader.old).number) × (reader.new ≡ (on_reader (increment_call par_id) reader.old).reader) }
{
    changed(
        reader,
        |r| reader_offsets::increment_curr_processed_offset(r, par_id),
    )
}

#[unsafe(no_mangle)]
pub extern "C" fn ext_drop_processing_offset(
    reader: &mut Reader,
    par_id: u8,
    drop_skip_offset: bool,
) -> u8
    ensures { (result ≡ (on_reader (drop_call par_id drop_skip_offset) reader.old).number) × (reader.new ≡ (on_reader (drop_call par_id drop_skip_offset) reader.old).reader) }
{
    changed(
        reader,
        |r| reader_offsets::drop_processing_offset(r, par_id, drop_skip_offset),
    )
}

#[unsafe(no_mangle)]
pub extern "C" fn ext_set_skip_processed_offset_to_current(reader: &mut Reader, par_id: u8) -> u8
    ensures { (result ≡ (on_reader (set_skip_call par_id) reader.old).number) × (reader.new ≡ (on_reader (set_skip_call par_id) reader.old).reader) }
{
    changed(
        reader,
        |r| reader_offsets::set_skip_processed_offset_to_current(r, par_id),
    )
}

#[unsafe(no_mangle)]
pub extern "C" fn ext_set_processed_to_current_position(reader: &mut Reader, par_id: u8) -> u8
    ensures { (result ≡ (on_reader (set_processed_call par_id) reader.old).number) × (reader.new ≡ (on_reader (set_processed_call par_id) reader.old).reader) }
{
    changed(
        reader,
        |r| reader_offsets::set_processed_to_current_position(r, par_id),
    )
}

#[unsafe(no_mangle)]
pub extern "C" fn ext_messages_taken(reader: &mut Reader, seqno: u32, par_id: u8, taken: u32) -> u8
    ensures { (result ≡ (on_reader (taken_call seqno par_id taken) reader.old).number) × (reader.new ≡ (on_reader (taken_call seqno par_id taken) reader.old).reader) }
{
    changed(
        reader,
        |r| reader_offsets::messages_taken(r, seqno, par_id, taken),
    )
}

#[unsafe(no_mangle)]
pub extern "C" fn ext_open_ranges_limit_reached(reader: Reader) -> FlagAnswer
    ensures { result ≡ flag_shown (limit_reached_call (reader_of reader)) }
{
    reader_offsets::open_ranges_limit_reached(reader.into()).into()
}

#[unsafe(no_mangle)]
pub extern "C" fn ext_has_non_zero_processed_offset(reader: Reader) -> FlagAnswer
    ensures { result ≡ flag_shown (non_zero_offset_call (reader_of reader)) }
{
    reader_offsets::has_non_zero_processed_offset(reader.into()).into()
}

#[unsafe(no_mangle)]
pub extern "C" fn ext_last_range_offset_reached(reader: Reader, par_id: u8) -> FlagAnswer
    ensures { result ≡ flag_shown (offset_reached_call par_id (reader_of reader)) }
{
    reader_offsets::last_range_offset_reached(reader.into(), par_id).into()
}

#[unsafe(no_mangle)]
pub extern "C" fn ext_last_range_offsets_reached_in_all_partitions(reader: Reader) -> FlagAnswer
    ensures { result ≡ flag_shown (offsets_reached_call (reader_of reader)) }
{
    reader_offsets::last_range_offsets_reached_in_all_partitions(reader.into()).into()
}

#[unsafe(no_mangle)]
pub extern "C" fn ext_count_messages_in_buffers_by_partitions(reader: Reader) -> ByPartitions
    ensures { result ≡ by_partitions_shown (count_call (reader_of reader)) }
{
    reader_offsets::count_messages_in_buffers_by_partitions(reader.into()).into()
}

#[unsafe(no_mangle)]
pub extern "C" fn ext_has_messages_in_buffers(reader: Reader) -> FlagAnswer
    ensures { result ≡ flag_shown (has_messages_call (reader_of reader)) }
{
    reader_offsets::has_messages_in_buffers(reader.into()).into()
}

#[unsafe(no_mangle)]
pub extern "C" fn ext_has_not_fully_read_ranges(reader: Reader) -> FlagAnswer
    ensures { result ≡ flag_shown (not_fully_read_call (reader_of reader)) }
{
    reader_offsets::has_not_fully_read_ranges(reader.into()).into()
}

#[unsafe(no_mangle)]
pub extern "C" fn ext_all_ranges_read_and_collected(reader: Reader) -> FlagAnswer
    ensures { result ≡ flag_shown (read_and_collected_call (reader_of reader)) }
{
    reader_offsets::all_ranges_read_and_collected(reader.into()).into()
}

#[unsafe(no_mangle)]
pub extern "C" fn ext_check_all_ranges_read_and_collected(reader: Reader) -> FlagAnswer
    ensures { result ≡ flag_shown (check_read_and_collected_call (reader_of reader)) }
{
    reader_offsets::check_all_ranges_read_and_collected(reader.into()).into()
}

#[unsafe(no_mangle)]
pub extern "C" fn ext_all_read_externals_collected(reader: Reader) -> FlagAnswer
    ensures { result ≡ flag_shown (all_collected_call (reader_of reader)) }
{
    reader_offsets::all_read_externals_collected(reader.into()).into()
}

#[unsafe(no_mangle)]
pub extern "C" fn ext_get_last_range_state_offsets_by_partitions(reader: Reader) -> ByPartitions
    ensures { result ≡ by_partitions_shown (last_offsets_call (reader_of reader)) }
{
    reader_offsets::get_last_range_state_offsets_by_partitions(reader.into()).into()
}

#[unsafe(no_mangle)]
pub extern "C" fn ext_get_partition_ids(reader: Reader) -> PartitionIds
    ensures { result ≡ partition_ids_shown (partition_ids_call (reader_of reader)) }
{
    externals_reader::get_partition_ids(reader.into()).into()
}

#[unsafe(no_mangle)]
pub extern "C" fn ext_create_next_externals_range_state(reader: Reader) -> NextRange
    ensures { result ≡ next_range_shown (next_range_call (reader_of reader)) }
{
    externals_reader::create_next_externals_range_state(reader.into()).into()
}

// ---- the reads
// `refill` is the Rust's mode: Refill, else Continue. The entries take the first `used` bytes of `out`.
#[tactic(auto, using(anchors_cache::proofs::Refused::on_refusal, refusals::proofs::Laws::refused_is_not_done), unfolding(crate::specs::Calls::read_all, crate::specs::Shapes::left_reader))]
#[unsafe(no_mangle)]
pub extern "C" fn ext_read_into_buffers(
    e: &mut Externals,
    out: &mut [u8],
    tables: &[u8],
    area: &[u8],
    routes: &[u8],
    refill: bool,
) -> AllAnswer
    ensures { (result ≡ (read_all_shown e.old.reader (read_all out.old tables.now area.now routes.now refill e.old).answer).answer)
        × (e.new ≡ (read_all_shown e.old.reader (read_all out.old tables.now area.now routes.now refill e.old).answer).state)
        × (out.new ≡ (read_all out.old tables.now area.now routes.now refill e.old).out) }
{
    let mode = shapes::group_mode(refill);
    let reader = e.reader.into();
    let lent = Lent {
        tables,
        area,
        routes,
    };
    let done = externals_reader::read_into_buffers(lent, e.transaction, reader, mode, out);
    if let Ok(a) = done {
        e.transaction = a.state;
        e.reader.hold(a.reader);
    }
    done.into()
}

#[tactic(auto, unfolding(crate::specs::Calls::read_range))]
#[unsafe(no_mangle)]
pub extern "C" fn ext_read_externals_into_buffers(
    e: &mut RangeAndCache,
    out: &mut [u8],
    tables: &[u8],
    area: &[u8],
    routes: &[u8],
    settings: RangeSettings,
) -> RangeAnswer
    ensures { (result ≡ (read_range_shown (read_range out.old tables.now area.now routes.now settings e.old).answer).answer)
        × (e.new ≡ (read_range_shown (read_range out.old tables.now area.now routes.now settings e.old).answer).state)
        × (out.new ≡ (read_range out.old tables.now area.now routes.now settings e.old).out) }
{
    let asked = settings.into();
    let lent = Lent {
        tables,
        area,
        routes,
    };
    let done = range_reader::read_externals_into_buffers(lent, e.transaction, asked, e.range, out);
    if let Ok(a) = done {
        e.transaction = a.state;
        e.range = a.range;
    }
    done.into()
}

// The free places of a range as it stands, for instance after the host has taken messages.
#[unsafe(no_mangle)]
pub extern "C" fn ext_get_max_buffers_fill_state(
    limits: BufferLimits,
    range: ExternalsRangeReaderState,
) -> FillState
    ensures { result ≡ fill_shown (fill_state limits.by_partitions range.by_partitions) }
{
    messages_buffer::get_max_buffers_fill_state(limits.by_partitions, range.by_partitions).into()
}

#[unsafe(no_mangle)]
pub extern "C" fn ext_has_pending_externals(
    tables: &[u8],
    t: AnchorsCacheTransaction,
    reader: Reader,
) -> FlagAnswer
    ensures { result ≡ flag_shown (pending_externals_call tables.now t (reader_of reader)) }
{
    reader_offsets::has_pending_externals(tables, t, reader.into()).into()
}
