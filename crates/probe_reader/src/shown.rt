// The reader's state, in lines that begin with S.
ghost use Rattle.text.specs.Shown.{Puts};

use ext_types::ChainTime;
use messages_buffer::ExternalsPartitionRangeReaderState;
use range_rules::ExternalsRangeReaderState;
use reader_rules::{ExternalsPartitionReaderState, ExternalsReader, ExternalsReaderState};

// One partition of a range, where it has it.
#[tactic(auto, using(text::proofs::Laws::puts_nothing))]
fn put_partition(
    out: &mut [u8],
    at: usize,
    i: usize,
    partition: &ExternalsPartitionRangeReaderState,
) -> usize
    ensures { Puts (record { at = at; bytes = out.old }) (record { at = result; bytes = out.new }) }
{
    if !partition.present {
        return at;
    }
    let rest = [
        u64::from(partition.count),
        u64::from(partition.skip_offset),
        u64::from(partition.processed_offset),
    ];
    text::put_joined(out, at, i as u64, &rest)
}

#[tactic(auto, using(text::proofs::Laws::puts_nothing))]
fn put_partitions(out: &mut [u8], at: usize, range: &ExternalsRangeReaderState) -> usize
    ensures { Puts (record { at = at; bytes = out.old }) (record { at = result; bytes = out.new }) }
{
    let mut to = at;
    for (i, partition) in range.by_partitions.iter().enumerate() {
        to = put_partition(&mut *out, to, i, partition);
    }
    text::put(out, to, b"\n")
}

fn put_range(out: &mut [u8], at: usize, range: &ExternalsRangeReaderState) -> usize
    ensures { Puts (record { at = at; bytes = out.old }) (record { at = result; bytes = out.new }) }
{
    let numbers = [
        u64::from(range.seqno),
        u64::from(range.from.anchor_id),
        range.from.msgs_offset,
        u64::from(range.to.anchor_id),
        range.to.msgs_offset,
        u64::from(range.current_position.anchor_id),
        range.current_position.msgs_offset,
        range.chain_time.0,
        u64::from(range.fully_read),
    ];
    let named = text::put(&mut *out, at, b"S range");
    let to = text::put_numbers(&mut *out, named, b' ', &numbers);
    put_partitions(out, to, range)
}

#[tactic(auto, using(text::proofs::Laws::puts_nothing))]
fn put_ranges(out: &mut [u8], at: usize, state: &ExternalsReaderState) -> usize
    ensures { Puts (record { at = at; bytes = out.old }) (record { at = result; bytes = out.new }) }
{
    let mut to = at;
    for range in state.ranges.iter().take(state.len) {
        to = put_range(&mut *out, to, range);
    }
    to
}

#[tactic(auto, using(text::proofs::Laws::puts_nothing))]
fn put_reader_partition(
    out: &mut [u8],
    at: usize,
    i: usize,
    partition: &ExternalsPartitionReaderState,
) -> usize
    ensures { Puts (record { at = at; bytes = out.old }) (record { at = result; bytes = out.new }) }
{
    if !partition.present {
        return at;
    }
    let numbers = [
        i as u64,
        u64::from(partition.processed_to.anchor_id),
        partition.processed_to.msgs_offset,
        u64::from(partition.curr_processed_offset),
    ];
    text::put_line(out, at, b"S part", &numbers)
}

#[tactic(auto, using(text::proofs::Laws::puts_nothing))]
fn put_reader_partitions(out: &mut [u8], at: usize, state: &ExternalsReaderState) -> usize
    ensures { Puts (record { at = at; bytes = out.old }) (record { at = result; bytes = out.new }) }
{
    let mut to = at;
    for (i, partition) in state.by_partitions.iter().enumerate() {
        to = put_reader_partition(&mut *out, to, i, partition);
    }
    to
}

// A chain time, or a hyphen where there is none.
pub(crate) fn put_last(out: &mut [u8], at: usize, last: Option<ChainTime>) -> usize
    ensures { Puts (record { at = at; bytes = out.old }) (record { at = result; bytes = out.new }) }
{
    match last {
        Some(time) => text::put_number(out, at, time.0),
        None => text::put(out, at, b" -"),
    }
}

// The ranges, the reader's partitions and its marks.
pub fn put_reader(out: &mut [u8], at: usize, reader: ExternalsReader) -> usize
    ensures { Puts (record { at = at; bytes = out.old }) (record { at = result; bytes = out.new }) }
{
    let state = reader.reader_state;
    let a = put_ranges(&mut *out, at, &state);
    let b = put_reader_partitions(&mut *out, a, &state);
    let c = text::put(&mut *out, b, b"S marks");
    let d = text::put_number(&mut *out, c, u64::from(reader.all_ranges_fully_read));
    let e = put_last(&mut *out, d, state.last_read_to_anchor_chain_time);
    text::put(out, e, b"\n")
}
