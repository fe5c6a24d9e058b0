// The ranges that a reader holds: tests of them, what they hold of a partition, and changes of them.
// That they are at most `max_ranges` stands in each contract that needs it: no plainer by a name, it is one inequality.
ghost use Rattle.std.specs.Prelude.{Ok, ℕ, ◌+◌, ◌<◌, ◌≤◌, ◌≡◌, map, length, set};
ghost use Rattle.reader_rules.specs.State.{held_ranges, max_ranges};
ghost use Rattle.reader_offsets.specs.Answers.{by_partitions_of, shown_if_present, record_there, last_there, place_there};
ghost use Rattle.reader_rules.specs.Offsets.{ranges_meet, all_fully_read, tallied, tally_of, shown_by, marked, raised_range, with_ranges, with_held, record_of, range_at, last_range, last_only, with_record, on_place};

use crate::partitions;
use messages_buffer::ExternalsPartitionRangeReaderState;
use range_rules::ExternalsRangeReaderState;
use reader_rules::{
    ExternalsPartitionReaderState, ExternalsReader, ExternalsReaderState, MAX_RANGES,
    PartitionTest, Tally,
};
use std::array;

// Whether each range meets the test in each partition.
pub(crate) fn every_range(
    test: PartitionTest,
    partitions: [ExternalsPartitionReaderState; 8],
    ranges: &[ExternalsRangeReaderState],
) -> bool
    ensures { result ≡ ranges_meet test partitions ranges.now }
{
    ranges.iter().all(|range| {
        partitions::every_partition(test, partitions, range.by_partitions)
    })
}

pub(crate) fn all_fully_read(ranges: &[ExternalsRangeReaderState]) -> bool
    ensures { result ≡ all_fully_read ranges.now }
{
    ranges.iter().all(|range| range.fully_read)
}

#[tactic(auto, using(crate::proofs::There::last_get))]
pub(crate) fn last_range(ranges: &[ExternalsRangeReaderState]) -> Option<ExternalsRangeReaderState>
    ensures { result ≡ last_there ranges.now }
{
    ranges.last().copied()
}

// The last range alone; of none, none.
#[tactic(auto, using(std::proofs::lemmas::List::take_rest))]
pub(crate) fn last_only(ranges: &[ExternalsRangeReaderState]) -> &[ExternalsRangeReaderState]
    ensures { result.now ≡ last_only ranges.now }
{
    &ranges[rows::last_place(ranges.len())..]
}

// A range's record of a partition, where there are both.
pub(crate) fn record_of(
    ranges: &[ExternalsRangeReaderState],
    at: usize,
    par_id: u8,
) -> Option<ExternalsPartitionRangeReaderState>
    ensures { result ≡ record_there (record_of par_id (range_at at ranges.now)) }
{
    let range = ranges.get(at)?;
    partitions::record_at(&range.by_partitions, par_id)
}

// That of the last range.
pub(crate) fn last_record(
    ranges: &[ExternalsRangeReaderState],
    par_id: u8,
) -> Option<ExternalsPartitionRangeReaderState>
    ensures { result ≡ record_there (record_of par_id (last_range ranges.now)) }
{
    record_of(ranges, rows::last_place(ranges.len()), par_id)
}

fn tallied(t: Tally, held: ExternalsPartitionRangeReaderState) -> Tally
    requires { t.count ≤ 1099511627776 }
    ensures { (result ≡ tallied t held) × (result.count ≤ t.count + 4294967295) }
{
    if !held.present {
        return t;
    }
    Tally {
        present: true,
        count: t.count + u64::from(held.count),
        processed: t.processed.max(held.processed_offset),
    }
}

// What the ranges hold of a partition together.
// No plainer as a `fold`: its closure isn't told the bound that the turns before give the count.
fn tally(ranges: &[ExternalsRangeReaderState], par: usize) -> Tally
    requires { (length ranges.now ≤ max_ranges) × (par < 8) }
    ensures { result ≡ tally_of par ranges.now }
{
    let mut t = Tally {
        present: false,
        count: 0,
        processed: 0,
    };
    for range in ranges {
        t = tallied(t, range.by_partitions[par]);
    }
    t
}

// The number that is answered of a partition that is present: its processed offset, or its count.
// A flag, as in the rule `shown_by`: a closure in its place would state both numbers in its contract again.
fn shown(t: Tally, offsets: bool) -> Option<u32>
    requires { t.count < 4294967296 }
    ensures { result ≡ shown_if_present offsets t }
{
    if !t.present {
        return None;
    }
    Some(if offsets { t.processed } else { t.count as u32 })
}

// What the ranges hold, by partitions.
pub(crate) fn by_partitions(ranges: &[ExternalsRangeReaderState], offsets: bool) -> [Option<u32>; 8]
    requires { (length ranges.now ≤ max_ranges) × ((par : ℕ) → (tally_of par ranges.now).count < 4294967296) }
    ensures { by_partitions_of (Ok result) ≡ shown_by offsets ranges.now }
{
    array::from_fn(|par| shown(tally(ranges, par), offsets))
}

// A range that is at its end is fully read; no mark is cleared.
#[tactic(auto, using(ext_types::proofs::Order::same_is_equal, std::proofs::lemmas::Bool::Decides::nat_tests))]
fn marked(range: ExternalsRangeReaderState) -> ExternalsRangeReaderState
    ensures { result ≡ marked range }
{
    ExternalsRangeReaderState {
        fully_read: range.fully_read || range.current_position == range.to,
        ..range
    }
}

pub(crate) fn mark_ranges(ranges: &mut [ExternalsRangeReaderState])
    ensures { ranges.new ≡ map marked ranges.old }
{
    for range in ranges.iter_mut() {
        *range = marked(*range);
    }
}

// The last range with the current offset of each partition that is above the greatest of all ranges.
pub(crate) fn raised_range(
    last: ExternalsRangeReaderState,
    partitions: [ExternalsPartitionReaderState; 8],
    ranges: &[ExternalsRangeReaderState],
) -> ExternalsRangeReaderState
    requires { length ranges.now ≤ max_ranges }
    ensures { result ≡ raised_range partitions ranges.now last }
{
    let raised = array::from_fn(|par| {
        let greatest = tally(ranges, par).processed;
        partitions::raised(last.by_partitions[par], partitions[par], greatest)
    });
    ExternalsRangeReaderState {
        by_partitions: raised,
        ..last
    }
}

// The place of the range with this seqno.
pub(crate) fn place_of(ranges: &[ExternalsRangeReaderState], seqno: u32) -> Option<usize>
    ensures { result ≡ place_there seqno ranges.now }
{
    ranges.iter().position(|range| range.seqno == seqno)
}

pub(crate) fn with_ranges(
    reader: ExternalsReader,
    ranges: [ExternalsRangeReaderState; MAX_RANGES],
    len: usize,
) -> ExternalsReader
    ensures { result ≡ with_ranges ranges len reader }
{
    ExternalsReader {
        reader_state: ExternalsReaderState {
            ranges,
            len,
            ..reader.reader_state
        },
        ..reader
    }
}

pub(crate) fn with_range(
    reader: ExternalsReader,
    at: usize,
    range: ExternalsRangeReaderState,
) -> ExternalsReader
    requires { (at < reader.reader_state.len) × (reader.reader_state.len ≤ max_ranges) }
    ensures { result ≡ with_held (set (held_ranges reader.reader_state) at range) reader }
{
    let mut ranges = reader.reader_state.ranges;
    ranges[at] = range;
    with_ranges(reader, ranges, reader.reader_state.len)
}

// A range's record of a partition replaced.
pub(crate) fn with_record_of(
    reader: ExternalsReader,
    at: usize,
    par_id: u8,
    held: ExternalsPartitionRangeReaderState,
) -> ExternalsReader
    requires { (at < reader.reader_state.len) × (reader.reader_state.len ≤ max_ranges) }
    ensures { result ≡ with_held (on_place at (with_record par_id held) (held_ranges reader.reader_state)) reader }
{
    let mut next = reader;
    let mut range = next.reader_state.ranges[at];
    partitions::put(&mut range.by_partitions, par_id, held);
    next.reader_state.ranges[at] = range;
    next
}
