// The reads of one range and of all ranges, and the lines of their answers.
// An array of a struct goes to another one by a local (tried: the borrow checker refuses the direct form).
ghost use Rattle.text.specs.Shown.{Puts};

use crate::{given, shown};
use anchors_cache::AnchorsCacheTransaction;
use cache_rules::AREA_BYTES;
use externals_reader::ReadIntoBuffers;
use range_reader::{Lent, RangeSettings, ReadExternals};
use range_rules::{ENTRY_LEN, ReadCounts, ReadNextExternalsMode};
use reader_rules::{ExternalsReader, GetNextMessageGroupMode};
use refusals::Refusal;

// The most places of an output that is lent.
pub const MAX_PLACES: usize = 1024;

// The most bytes of one: those places, and too few more for another.
pub const OUTPUT_BYTES: usize = ENTRY_LEN * MAX_PLACES + 25;

// What a read is handed: the reader, the cache, the lent bytes, and how many bytes of an output.
#[derive(Clone, Copy)]
pub struct Handed<'a> {
    pub reader: ExternalsReader,
    pub cache: AnchorsCacheTransaction,
    pub lent: Lent<'a>,
    pub output: usize,
}

// The place behind the text, and the reader and the cache after a read.
#[derive(Clone, Copy)]
pub struct Answered {
    pub at: usize,
    pub reader: ExternalsReader,
    pub cache: AnchorsCacheTransaction,
}

// What is asked of a range that is not there.
fn missing(handed: Handed<'_>) -> Refusal {
    if handed.lent.area.len() < AREA_BYTES {
        Refusal::AreaTooShort
    } else if !handed.cache.active {
        Refusal::TransactionOpenOrNone
    } else {
        Refusal::NotThere
    }
}

// A read of a range that is not there is refused before the call.
fn range_read(
    handed: Handed<'_>,
    seqno: u32,
    mode: ReadNextExternalsMode,
    output: &mut [u8],
) -> Result<ReadExternals, Refusal> {
    let reader = handed.reader;
    let Some(range) = given::find(reader.reader_state, seqno) else {
        return Err(missing(handed));
    };
    let limits = reader.buffer_limits_by_partitions;
    let processed = externals_reader::processed_in(reader.reader_state.by_partitions);
    let settings = RangeSettings {
        shard: reader.for_shard_id,
        limits,
        processed,
        timeout: reader.msgs_exec_params.externals_expire_timeout,
        mode,
    };
    range_reader::read_externals_into_buffers(handed.lent, handed.cache, settings, range, output)
}

// The counts of a partition, where not all are 0.
#[tactic(auto, using(text::proofs::Laws::puts_nothing))]
fn put_count(out: &mut [u8], at: usize, i: usize, counts: [u32; 3]) -> usize
    ensures { Puts (record { at = at; bytes = out.old }) (record { at = result; bytes = out.new }) }
{
    if counts == [0; 3] {
        return at;
    }
    let [read, expired, buffered] = counts.map(u64::from);
    let numbers = [i as u64, read, expired, buffered];
    text::put_line(out, at, b"count", &numbers)
}

#[tactic(auto, using(text::proofs::Laws::puts_nothing))]
fn put_counts(out: &mut [u8], at: usize, counts: &ReadCounts) -> usize
    ensures { Puts (record { at = at; bytes = out.old }) (record { at = result; bytes = out.new }) }
{
    let mut to = at;
    let columns = counts.read.iter().zip(&counts.expired);
    for (i, ((read, expired), buffered)) in columns.zip(&counts.buffered).enumerate() {
        to = put_count(&mut *out, to, i, [*read, *expired, *buffered]);
    }
    to
}

// The entries that were written.
fn put_entries(out: &mut [u8], at: usize, output: &[u8], used: usize) -> usize
    ensures { Puts (record { at = at; bytes = out.old }) (record { at = result; bytes = out.new }) }
{
    lines::put_entries(out, at, output.get(..used).unwrap_or_default())
}

fn put_one(out: &mut [u8], at: usize, output: &[u8], read: ReadExternals) -> usize
    ensures { Puts (record { at = at; bytes = out.old }) (record { at = result; bytes = out.new }) }
{
    let a = text::put(&mut *out, at, b"one 0\nanswer");
    let b = shown::put_last(&mut *out, a, read.last_chain_time);
    let c = text::put_line(&mut *out, b, b"", &[u64::from(read.free)]);
    let d = put_counts(&mut *out, c, &read.counts);
    put_entries(out, d, output, read.used)
}

fn put_all(out: &mut [u8], at: usize, output: &[u8], read: ReadIntoBuffers) -> usize
    ensures { Puts (record { at = at; bytes = out.old }) (record { at = result; bytes = out.new }) }
{
    let named = text::put(&mut *out, at, b"read 0\n");
    let a = lines::put_free(&mut *out, named, read.free);
    let b = put_entries(&mut *out, a, output, read.used);
    let c = put_counts(&mut *out, b, &read.counts);
    lines::put_ranges(out, c, read.reader.reader_state)
}

// A refused read leaves reader and cache, and answers nothing but the number.
fn refused(out: &mut [u8], at: usize, handed: Handed<'_>, name: &[u8], refusal: Refusal) -> Answered
    ensures { Puts (record { at = at; bytes = out.old }) (record { at = result.at; bytes = out.new }) }
{
    Answered {
        at: text::put_call(out, at, name, refusal.into()),
        reader: handed.reader,
        cache: handed.cache,
    }
}

// One range's read: seqno 4, mode 1.
pub fn one(out: &mut [u8], at: usize, handed: Handed<'_>, p: &[u8]) -> Answered
    ensures { Puts (record { at = at; bytes = out.old }) (record { at = result.at; bytes = out.new }) }
{
    let mode = match rows::byte_at(p, 4) {
        0 => ReadNextExternalsMode::ToTheEnd,
        _ => ReadNextExternalsMode::ToPreviuosReadTo,
    };
    let mut output = [0; OUTPUT_BYTES];
    let n = handed.output.min(OUTPUT_BYTES);
    match range_read(handed, rows::num_at(p, 0), mode, &mut output[..n]) {
        Ok(read) => Answered {
            at: put_one(out, at, &output, read),
            reader: given::with_range(handed.reader, read.range),
            cache: read.state,
        },
        Err(refusal) => refused(out, at, handed, b"one", refusal),
    }
}

// The mode of a read of all, by its number: 0, or another.
fn group_mode(mode: u8) -> GetNextMessageGroupMode {
    if mode == 0 {
        GetNextMessageGroupMode::Continue
    } else {
        GetNextMessageGroupMode::Refill
    }
}

// The read of all ranges. The mode's number, for the mode itself would ask more of callers.
pub fn all(out: &mut [u8], at: usize, handed: Handed<'_>, mode: u8) -> Answered
    ensures { Puts (record { at = at; bytes = out.old }) (record { at = result.at; bytes = out.new }) }
{
    let mut output = [0; OUTPUT_BYTES];
    let n = handed.output.min(OUTPUT_BYTES);
    let out_lent = &mut output[..n];
    match externals_reader::read_into_buffers(
        handed.lent,
        handed.cache,
        handed.reader,
        group_mode(mode),
        out_lent,
    ) {
        Ok(read) => Answered {
            at: put_all(out, at, &output, read),
            reader: read.reader,
            cache: read.state,
        },
        Err(refusal) => refused(out, at, handed, b"read", refusal),
    }
}
