// Ranges, partitions and marks of a reader that are put without a call, from a record's payload.
ghost use Rattle.std.specs.Prelude.{◌<◌, ◌≡◌, eqb, get_or, IfSome};
ghost use Rattle.reader_rules.specs.State.{with_state, with_mark, with_last};
ghost use Rattle.externals_reader.specs.Answers.{reader_done_of};
ghost use Rattle.externals_reader.specs.Calls.{changed};
ghost use Rattle.probe_reader.specs.Given.{last_of, with_partitions, with_ranges};

use ext_types::{ChainTime, ExternalKey};
use messages_buffer::{ExternalsPartitionRangeReaderState, NO_PARTITION};
use range_rules::ExternalsRangeReaderState;
use reader_rules::{
    ExternalsPartitionReaderState, ExternalsReader, ExternalsReaderState, MAX_RANGES,
};
use refusals::Refusal;

// A range without its partitions, and one of these.
pub const RANGE_HEAD: usize = 49;

pub const PARTITION_LEN: usize = 13;

// Fields past the end of a payload are 0.
fn key_at(p: &[u8], at: usize) -> ExternalKey
    requires { at < 1000 }
{
    ExternalKey {
        anchor_id: rows::num_at(p, at),
        msgs_offset: rows::num_at(p, at + 4),
    }
}

fn partition_of(row: &[u8]) -> ExternalsPartitionRangeReaderState {
    ExternalsPartitionRangeReaderState {
        count: rows::num_at(row, 1),
        skip_offset: rows::num_at(row, 5),
        processed_offset: rows::num_at(row, 9),
        present: rows::byte_at(row, 0) == 1,
    }
}

// A row that the payload's end cuts has zeros behind it. extprobe cuts the rows once more: out of a function for both,
// the loop's proof lacks their width (tried).
fn partitions_of(p: &[u8]) -> [ExternalsPartitionRangeReaderState; 8] {
    let mut all = [NO_PARTITION; 8];
    let rows = p
        .get(RANGE_HEAD..)
        .unwrap_or_default()
        .chunks(PARTITION_LEN);
    for (partition, row) in all.iter_mut().zip(rows) {
        *partition = partition_of(row);
    }
    all
}

fn range_of(p: &[u8]) -> ExternalsRangeReaderState {
    ExternalsRangeReaderState {
        seqno: rows::num_at(p, 0),
        from: key_at(p, 4),
        to: key_at(p, 16),
        current_position: key_at(p, 28),
        chain_time: ChainTime(rows::num_at(p, 40)),
        fully_read: rows::byte_at(p, 48) == 1,
        by_partitions: partitions_of(p),
    }
}

// A reader partition: number 1, present 1, processed key 12, current offset 4.
fn reader_partition_of(p: &[u8]) -> ExternalsPartitionReaderState {
    ExternalsPartitionReaderState {
        processed_to: key_at(p, 2),
        curr_processed_offset: rows::num_at(p, 14),
        present: rows::byte_at(p, 1) == 1,
    }
}

#[tactic(auto, using(std::proofs::lemmas::Bool::Decides::nat_tests), unfolding(crate::specs::Given::last_of))]
fn last_of(p: &[u8]) -> Option<ChainTime>
    ensures { result ≡ last_of p.now }
{
    (rows::byte_at(p, 1) == 1).then(|| ChainTime(rows::num_at(p, 2)))
}

// The range with a seqno.
pub(crate) fn find(state: ExternalsReaderState, seqno: u32) -> Option<ExternalsRangeReaderState> {
    state
        .ranges
        .iter()
        .take(state.len)
        .find(|range| range.seqno == seqno)
        .copied()
}

// A range in place of that with its seqno, or one more, put where its seqno belongs; none where there is no place.
fn inserted(
    state: ExternalsReaderState,
    range: ExternalsRangeReaderState,
) -> Option<ExternalsReaderState>
    ensures { IfSome result (λ s. s ≡ with_ranges state s) }
{
    let len = state.len.min(MAX_RANGES);
    let mut ranges = state.ranges;
    match ranges[..len].binary_search_by_key(&range.seqno, |held| held.seqno) {
        Ok(at) => {
            ranges[at] = range;
            Some(ExternalsReaderState { ranges, ..state })
        }
        Err(_) if len == MAX_RANGES => None,
        Err(at) => {
            ranges.copy_within(at..len, at + 1);
            ranges[at] = range;
            Some(ExternalsReaderState {
                ranges,
                len: len + 1,
                ..state
            })
        }
    }
}

// The reader with a range; where there is no place, as it was.
pub(crate) fn with_range(
    reader: ExternalsReader,
    range: ExternalsRangeReaderState,
) -> ExternalsReader
    ensures { result ≡ with_state reader (with_ranges reader.reader_state result.reader_state) }
{
    ExternalsReader {
        reader_state: inserted(reader.reader_state, range).unwrap_or(reader.reader_state),
        ..reader
    }
}

// A range, with question 5 of it.
pub fn put_range(reader: ExternalsReader, p: &[u8]) -> Result<ExternalsReader, Refusal>
    ensures { let done = reader_done_of reader result in
        let state = with_ranges reader.reader_state done.reader.reader_state in
        done ≡ changed done.number reader (with_state reader state) }
{
    let range = range_of(p);
    messages_buffer::check_partitions(range.by_partitions)?;
    let reader_state = inserted(reader.reader_state, range).ok_or(Refusal::StateUnsound)?;
    Ok(ExternalsReader {
        reader_state,
        ..reader
    })
}

// A reader partition; one above 7 is not there.
pub fn with_partition(reader: ExternalsReader, p: &[u8]) -> ExternalsReader
    ensures { result ≡ with_state reader (with_partitions reader.reader_state result.reader_state.by_partitions) }
{
    let i = usize::from(rows::byte_at(p, 0));
    let mut after = reader;
    if let Some(partition) = after.reader_state.by_partitions.get_mut(i) {
        *partition = reader_partition_of(p);
    }
    after
}

// All ranges read 1; last chain time: present 1, value 8.
pub fn with_marks(reader: ExternalsReader, p: &[u8]) -> ExternalsReader
    ensures { let state = with_last reader.reader_state (last_of p.now) in
        result ≡ with_mark (with_state reader state) (eqb (get_or p.now 0 0) 1) }
{
    ExternalsReader {
        reader_state: ExternalsReaderState {
            last_read_to_anchor_chain_time: last_of(p),
            ..reader.reader_state
        },
        all_ranges_fully_read: rows::byte_at(p, 0) == 1,
        ..reader
    }
}
