// The next range.
ghost use Rattle.std.specs.Prelude.{◌≤◌, ◌≡◌, ℕ, List, map};
ghost use Rattle.range_rules.specs.declared.ExternalsRangeReaderState.{ExternalsRangeReaderState};
ghost use Rattle.reader_rules.specs.State.{max_ranges};
ghost use Rattle.externals_reader.specs.Locals.{last_range};
ghost use Rattle.reader_rules.specs.Rules.{next_partition, range_from, next_range, wants_next, read_of};
ghost use Rattle.externals_reader.specs.Ready.{so_far_told};

use crate::SoFar;
use ext_types::{ChainTime, ExternalKey, NO_KEY};
use messages_buffer::ExternalsPartitionRangeReaderState;
use range_rules::ExternalsRangeReaderState;
use reader_rules::{ExternalsPartitionReaderState, Fixed, GetNextMessageGroupMode, MAX_RANGES};

// A partition of a new range: an empty buffer, both offsets at the current one.
fn next_partition(p: ExternalsPartitionReaderState) -> ExternalsPartitionRangeReaderState
    ensures { result ≡ next_partition p }
{
    ExternalsPartitionRangeReaderState {
        count: 0,
        skip_offset: p.curr_processed_offset,
        processed_offset: p.curr_processed_offset,
        present: p.present,
    }
}

fn next_partitions(
    parts: [ExternalsPartitionReaderState; 8],
) -> [ExternalsPartitionRangeReaderState; 8]
    ensures { result ≡ map next_partition parts }
{
    parts.map(next_partition)
}

// The last of the first `len` ranges, if there is one.
pub(crate) fn last_range(
    ranges: &[ExternalsRangeReaderState; MAX_RANGES],
    len: usize,
) -> Option<ExternalsRangeReaderState>
    requires { len ≤ max_ranges }
    ensures { result ≡ last_range len ranges.now }
{
    ranges[..len].last().copied()
}

fn range_from(
    seqno: u32,
    from: ExternalKey,
    time: ChainTime,
    parts: [ExternalsPartitionRangeReaderState; 8],
) -> ExternalsRangeReaderState
    ensures { result ≡ range_from seqno from time parts }
{
    ExternalsRangeReaderState {
        seqno,
        from,
        to: from,
        current_position: from,
        chain_time: time,
        fully_read: false,
        by_partitions: parts,
    }
}

// The range behind the last one, or the first one.
pub(crate) fn next_range(
    seqno: u32,
    time: ChainTime,
    parts: [ExternalsPartitionReaderState; 8],
    last: Option<ExternalsRangeReaderState>,
) -> ExternalsRangeReaderState
    ensures { (ranges : List ExternalsRangeReaderState) (len : ℕ) → last ≡ last_range len ranges → result ≡ next_range seqno time parts ranges len }
{
    let from = last.map_or(NO_KEY, |range| range.to);
    range_from(seqno, from, time, next_partitions(parts))
}

// The one that a read appends.
pub(crate) fn appended_range(
    x: Fixed,
    last: Option<ExternalsRangeReaderState>,
) -> ExternalsRangeReaderState
    ensures { (ranges : List ExternalsRangeReaderState) (len : ℕ) → last ≡ last_range len ranges → result ≡ next_range x.block_seqno x.next_chain_time x.by_partitions ranges len }
{
    next_range(x.block_seqno, x.next_chain_time, x.by_partitions, last)
}

// Whether a range is appended: all are fully read, and nothing forbids it.
pub(crate) fn wants_next(
    x: Fixed,
    s: SoFar,
    last: Option<ExternalsRangeReaderState>,
    len: usize,
) -> bool
    ensures { (ranges : List ExternalsRangeReaderState) → last ≡ last_range len ranges → result ≡ wants_next x (read_of (so_far_told s) ranges len) }
{
    s.all_read
        && matches!(x.mode, GetNextMessageGroupMode::Continue)
        && !x.params.new_is_some
        && len < crate::open_ranges_limit(x.params)
        && last.map_or(0, |range| range.seqno) < x.block_seqno
}
