// Ranges and partitions of the reader's state.
ghost use Rattle.std.specs.Prelude.{◌+◌, ◌≤◌, ◌≡◌, map, length};
ghost use Rattle.reader_rules.specs.Rules.{with_default, partitions_entered, range_entered, ranges_entered, state_entered, processed_of};
ghost use Rattle.reader_rules.specs.State.{with_last, max_ranges};
ghost use Rattle.externals_reader.specs.Calls.{is_present, imported_in};
ghost use Rattle.cache_rules.specs.Rules.{max_history};
ghost use Rattle.anchors_cache.specs.Tables.{tables_bytes};

use anchors_cache::AnchorsCache;
use ext_types::{ChainTime, ExternalKey, NO_KEY};
use messages_buffer::NO_LIMIT;
use range_rules::{ExternalsRangeReaderState, ProcessedTo};
use reader_rules::{ExternalsPartitionReaderState, ExternalsReaderState, MAX_RANGES};
use std::array;

pub(crate) fn with_last(
    state: ExternalsReaderState,
    last: Option<ChainTime>,
) -> ExternalsReaderState
    ensures { result ≡ with_last state last }
{
    ExternalsReaderState {
        last_read_to_anchor_chain_time: last,
        ..state
    }
}

#[tactic(auto, using(std::proofs::lemmas::Bool::Decides::nat_tests), unfolding(reader_rules::specs::Rules::with_default))]
fn with_default(limit: u16, p: ExternalsPartitionReaderState) -> ExternalsPartitionReaderState
    ensures { result ≡ with_default limit p }
{
    if p.present || limit == NO_LIMIT {
        return p;
    }
    ExternalsPartitionReaderState {
        processed_to: NO_KEY,
        curr_processed_offset: 0,
        present: true,
    }
}

fn partitions_entered(
    limits: [u16; 8],
    parts: [ExternalsPartitionReaderState; 8],
) -> [ExternalsPartitionReaderState; 8]
    ensures { result ≡ partitions_entered limits parts }
{
    array::from_fn(|i| with_default(limits[i], parts[i]))
}

#[tactic(auto, using(ext_types::proofs::Order::same_is_equal))]
fn range_entered(range: ExternalsRangeReaderState) -> ExternalsRangeReaderState
    ensures { result ≡ range_entered range }
{
    ExternalsRangeReaderState {
        fully_read: range.current_position == range.to,
        ..range
    }
}

#[tactic(auto, using(reader_rules::proofs::Each::mapped_next, reader_rules::proofs::Each::mapped_end))]
fn enter(ranges: &mut [ExternalsRangeReaderState])
    ensures { ranges.new ≡ map range_entered ranges.old }
{
    for range in ranges {
        *range = range_entered(*range);
    }
}

// What `new` makes of a state, in place. Behind a reference only the condition says how long the table is.
// Not inlined: with its loops in line `ext_new_reader` first clears the answer's table, half the instructions again.
#[inline(never)]
#[tactic(auto, using(reader_rules::proofs::Each::sets_mapped))]
pub(crate) fn entered(limits: [u16; 8], state: &mut ExternalsReaderState)
    requires { (state.old.len ≤ max_ranges) × (length state.old.ranges ≡ max_ranges) }
    ensures { state.new ≡ state_entered limits state.old }
{
    let len = state.len;
    enter(&mut state.ranges[..len]);
    state.by_partitions = partitions_entered(limits, state.by_partitions);
}

pub(crate) fn present_in(parts: [ExternalsPartitionReaderState; 8]) -> [bool; 8]
    ensures { result ≡ map is_present parts }
{
    parts.map(|p| p.present)
}

pub(crate) fn processed_of(p: ExternalsPartitionReaderState) -> ProcessedTo
    ensures { result ≡ processed_of p }
{
    ProcessedTo {
        key: p.processed_to,
        present: p.present,
    }
}

// The last imported entry's id and message count. Pops never remove that entry.
#[tactic(auto, using(anchors_cache::proofs::Laws::infos_none, anchors_cache::proofs::Laws::last_info, crate::proofs::Laws::info_in_table), unfolding(cache_rules::specs::Rules::last_of))]
pub(crate) fn last_imported(tables: &[u8], cache: AnchorsCache) -> Option<ExternalKey>
    requires { (cache.history_first + cache.history_len ≤ max_history) × (tables_bytes ≤ length tables.now) }
    ensures { result ≡ imported_in tables.now cache }
{
    if cache.history_len == 0 {
        return None;
    }
    let info = anchors_cache::history_row(tables, cache.history_first + cache.history_len - 1);
    Some(ExternalKey {
        anchor_id: info.id,
        msgs_offset: u64::from(info.all_exts_count),
    })
}
