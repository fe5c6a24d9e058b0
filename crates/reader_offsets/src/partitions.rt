// One partition: its record in the reader, and its record in a range.
ghost use Rattle.std.specs.Prelude.{◌≡◌, not, ◌||◌, set};
ghost use Rattle.reader_rules.specs.Offsets.{reader_partition, record_at, collected, meets, partitions_meet, dropped, skip_raised, offset_raised, with_partition};
ghost use Rattle.reader_offsets.specs.Answers.{partition_there, record_there};

use messages_buffer::ExternalsPartitionRangeReaderState;
use reader_rules::{ExternalsPartitionReaderState, ExternalsReader, PartitionTest};

// The reader's record of a partition, where it is present; one above 7 is not.
pub(crate) fn partition_at(
    partitions: &[ExternalsPartitionReaderState],
    par_id: u8,
) -> Option<ExternalsPartitionReaderState>
    ensures { result ≡ partition_there (reader_partition par_id partitions.now) }
{
    partitions
        .get(usize::from(par_id))
        .copied()
        .filter(|partition| partition.present)
}

// A range's record of a partition, where it is present; one above 7 is not.
// Beside its twin: one function for both would need a trait for the mark, no plainer than one line of library methods.
pub(crate) fn record_at(
    records: &[ExternalsPartitionRangeReaderState],
    par_id: u8,
) -> Option<ExternalsPartitionRangeReaderState>
    ensures { result ≡ record_there (record_at par_id records.now) }
{
    records
        .get(usize::from(par_id))
        .copied()
        .filter(|held| held.present)
}

// A partition's entry of a table replaced; a partition above 7 has none.
pub(crate) fn put<T: Copy>(table: &mut [T], par_id: u8, value: T)
    ensures { table.new ≡ set table.old par_id value }
{
    let at = usize::from(par_id);
    if at < table.len() {
        table[at] = value;
    }
}

pub(crate) fn with_partition(
    reader: ExternalsReader,
    par_id: u8,
    partition: ExternalsPartitionReaderState,
) -> ExternalsReader
    ensures { result ≡ with_partition par_id partition reader }
{
    let mut next = reader;
    put(&mut next.reader_state.by_partitions, par_id, partition);
    next
}

fn implies(a: bool, b: bool) -> bool
    ensures { result ≡ (not a || b) }
{
    !a || b
}

#[tactic(auto, unfolding(reader_rules::specs::Offsets::meets))]
pub(crate) fn meets(
    test: PartitionTest,
    partition: ExternalsPartitionReaderState,
    held: ExternalsPartitionRangeReaderState,
) -> bool
    ensures { result ≡ meets test partition held }
{
    match test {
        PartitionTest::InRange => implies(partition.present, held.present),
        PartitionTest::InReader => implies(held.present, partition.present),
        PartitionTest::Unprocessed => implies(held.present, held.processed_offset == 0),
        PartitionTest::Empty => implies(held.present, held.count == 0),
        PartitionTest::Reached => {
            implies(
                held.present,
                held.processed_offset <= partition.curr_processed_offset,
            )
        }
        PartitionTest::Collected => is_collected(partition, held),
    }
}

fn is_collected(
    partition: ExternalsPartitionReaderState,
    held: ExternalsPartitionRangeReaderState,
) -> bool
    ensures { result ≡ collected partition held }
{
    let offset = if partition.present {
        partition.curr_processed_offset
    } else {
        0
    };
    implies(held.present, held.count == 0 && held.skip_offset <= offset)
}

pub(crate) fn every_partition(
    test: PartitionTest,
    partitions: [ExternalsPartitionReaderState; 8],
    records: [ExternalsPartitionRangeReaderState; 8],
) -> bool
    ensures { result ≡ partitions_meet test partitions records }
{
    partitions
        .iter()
        .zip(&records)
        .all(|(p, x)| meets(test, *p, *x))
}

pub(crate) fn dropped(
    held: ExternalsPartitionRangeReaderState,
    drop_skip_offset: bool,
) -> ExternalsPartitionRangeReaderState
    ensures { result ≡ dropped drop_skip_offset held }
{
    ExternalsPartitionRangeReaderState {
        processed_offset: 0,
        skip_offset: if drop_skip_offset {
            0
        } else {
            held.skip_offset
        },
        ..held
    }
}

pub(crate) fn skip_raised(
    held: ExternalsPartitionRangeReaderState,
    offset: u32,
) -> ExternalsPartitionRangeReaderState
    ensures { result ≡ skip_raised offset held }
{
    if offset <= held.processed_offset {
        return held;
    }
    ExternalsPartitionRangeReaderState {
        processed_offset: offset,
        skip_offset: offset,
        ..held
    }
}

// `greatest`: the greatest processed offset of the partition in all ranges.
pub(crate) fn raised(
    held: ExternalsPartitionRangeReaderState,
    partition: ExternalsPartitionReaderState,
    greatest: u32,
) -> ExternalsPartitionRangeReaderState
    ensures { result ≡ offset_raised partition greatest held }
{
    if !partition.present || partition.curr_processed_offset <= greatest {
        return held;
    }
    ExternalsPartitionRangeReaderState {
        processed_offset: partition.curr_processed_offset,
        ..held
    }
}
