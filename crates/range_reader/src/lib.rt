// One range's read of externals: document 01's six steps over the cached anchors.
// A refused read answers why and leaves transaction, range and every output byte as at entry.
// Arrays of a struct go to another one by a local: a field that is an array can't be moved out beside the others
// (tried: the borrow checker refuses it).
#![tactic(auto)]

ghost use Rattle.std.specs.Prelude.{Ok, ◌≡◌};
ghost use Rattle.range_reader.specs.Ready.{range_told};
ghost use Rattle.range_reader.specs.Locals.{progress_of};
ghost use Rattle.range_reader.specs.Calls.{read_call, check_call, read_or_check_call, read_answer_of, done_answer};
ghost use Rattle.range_rules.specs.Rules.{context_of, entry_of};

use anchors_cache::AnchorsCacheTransaction;
use ext_types::{ChainTime, ExternalKey, Seconds};
use messages_buffer::ExternalsPartitionRangeReaderState;
use range_rules::{
    Buffers, Context, ExternalsRangeReaderState, NO_COUNTS, Place, ProcessedTo, ReadCounts,
    ReadNextExternalsMode,
};
use refusals::Refusal;
use shard_ident::ShardIdent;

mod anchors;
mod halfway;
mod messages;
mod questions;

// What a read is asked to do with a range: whose messages it reads, how many of each partition it buffers, from where
// on, and which anchors are too old.
#[derive(Clone, Copy, Debug, PartialEq, Eq)]
pub struct RangeSettings {
    pub shard: ShardIdent,
    pub limits: [u16; 8],
    pub processed: [ProcessedTo; 8],
    pub timeout: Seconds,
    pub mode: ReadNextExternalsMode,
}

// The bytes that a read is lent: the host's tables, the messages' area and the routes.
#[derive(Clone, Copy)]
pub struct Lent<'a> {
    pub tables: &'a [u8],
    pub area: &'a [u8],
    pub routes: &'a [u8],
}

// `free` is the fewest free places of the range's buffers at the read's end, 0 where one is full; `pops` anchors went
// from the cache; the entries take the first `used` bytes of the output.
#[derive(Clone, Copy, Debug, PartialEq, Eq)]
pub struct ReadExternals {
    pub last_chain_time: Option<ChainTime>,
    pub free: u16,
    pub pops: usize,
    pub used: usize,
    pub counts: ReadCounts,
    pub range: ExternalsRangeReaderState,
    pub state: AnchorsCacheTransaction,
}

// What a read that no question refused has come to over some messages.
#[derive(Clone, Copy, Debug, PartialEq, Eq)]
pub struct Walk {
    pub place: Place,
    pub buffers: Buffers,
    pub counts: ReadCounts,
}

// And over some anchors.
#[derive(Clone, Copy, Debug, PartialEq, Eq)]
pub struct RangeRead {
    pub walk: Walk,
    pub pops: usize,
    pub fully_read: bool,
    pub ended: bool,
    pub last: Option<ChainTime>,
}

// What becomes of a message of ours that no question refuses. `Keep`: it is counted as read and not buffered; `Buffer`:
// both.
#[derive(Clone, Copy, Debug, PartialEq, Eq)]
pub enum Verdict {
    Keep,
    Buffer,
}

// What the walk over an anchor's messages has come to beside its counts: the fewest free places of a buffer, the bytes
// used.
#[derive(Clone, Copy, Debug, PartialEq, Eq)]
pub struct Progress {
    pub free: u16,
    pub used: usize,
}

impl From<Buffers> for Progress {
    ghost from_gives = { λ b p. p ≡ progress_of b };

    fn from(b: Buffers) -> Progress {
        Progress {
            free: b.free,
            used: b.used,
        }
    }
}

// The fields of an output entry.
#[derive(Clone, Copy, Debug, PartialEq, Eq)]
pub struct Entry {
    pub seqno: u32,
    pub partition: u16,
    pub key: ExternalKey,
    pub time: ChainTime,
}

// What a message of ours changes beside its count as read: it counts `buffered` more as buffered in its partition.
#[derive(Clone, Copy, Debug, PartialEq, Eq)]
pub struct Taken {
    pub progress: Progress,
    pub buffered: u32,
    pub partition: ExternalsPartitionRangeReaderState,
}

fn context_of(settings: RangeSettings, range: ExternalsRangeReaderState, room: usize) -> Context
    ensures { result ≡ context_of settings.shard settings.limits settings.processed settings.timeout settings.mode range room }
{
    let limits = settings.limits;
    let processed = settings.processed;
    Context {
        shard: settings.shard,
        seqno: range.seqno,
        chain_time: range.chain_time,
        limit: ChainTime::from(settings.timeout),
        mode: settings.mode,
        position: range.current_position,
        saved_end: range.to,
        limits,
        processed,
        room,
    }
}

fn at_entry(range: ExternalsRangeReaderState, free: u16) -> RangeRead
    ensures { range_told result ≡ entry_of range free }
{
    let by_partitions = range.by_partitions;
    RangeRead {
        walk: Walk {
            place: Place {
                key: range.current_position,
                reached: false,
                position: range.current_position,
                to: range.to,
            },
            buffers: Buffers {
                free,
                used: 0,
                by_partitions,
            },
            counts: NO_COUNTS,
        },
        pops: 0,
        fully_read: range.fully_read,
        ended: false,
        last: None,
    }
}

fn done_answer(
    range: ExternalsRangeReaderState,
    r: RangeRead,
    t: AnchorsCacheTransaction,
) -> ReadExternals
    ensures { read_answer_of range t (Ok result) ≡ done_answer range (range_told r) t }
{
    let by_partitions = r.walk.buffers.by_partitions;
    ReadExternals {
        last_chain_time: r.last,
        free: r.walk.buffers.free,
        pops: r.pops,
        used: r.walk.buffers.used,
        counts: r.walk.counts,
        range: ExternalsRangeReaderState {
            to: r.walk.place.to,
            current_position: r.walk.place.position,
            fully_read: r.fully_read,
            by_partitions,
            ..range
        },
        state: t,
    }
}

// Either of the two calls below: the entries are written where `write` is set.
// A flag, no closure (no plainer): one walk makes both runs, and each function of it lends the output on.
pub fn read_or_check(
    lent: Lent<'_>,
    t: AnchorsCacheTransaction,
    settings: RangeSettings,
    range: ExternalsRangeReaderState,
    write: bool,
    out: &mut [u8],
) -> Result<ReadExternals, Refusal>
    ensures { record { answer = read_answer_of range t result; out = out.new } ≡ read_or_check_call write lent.entry.tables.now lent.entry.area.now t settings.shard lent.entry.routes.now settings.limits settings.processed settings.timeout settings.mode range out.old }
{
    let free = questions::asked(lent, t, settings, range)?;
    let x = context_of(settings, range, out.len());
    let start = at_entry(range, free);
    let r = anchors::read_or_refuse(lent, t.cache, x, start, write, out)?;
    let state = anchors_cache::pop_fronts(lent.tables, lent.area, t, r.pops)?;
    Ok(done_answer(range, r, state))
}

// One range's read. Where a question could refuse it half-way, a first run that writes nothing decides, so that a
// refusal leaves the output as it is.
pub fn read_externals_into_buffers(
    lent: Lent<'_>,
    t: AnchorsCacheTransaction,
    settings: RangeSettings,
    range: ExternalsRangeReaderState,
    out: &mut [u8],
) -> Result<ReadExternals, Refusal>
    ensures { record { answer = read_answer_of range t result; out = out.new } ≡ read_call lent.entry.tables.now lent.entry.area.now t settings.shard lent.entry.routes.now settings.limits settings.processed settings.timeout settings.mode range out.old }
{
    read_or_check(lent, t, settings, range, true, out)
}

// What the read would answer; nothing is written.
pub fn check_read_externals(
    lent: Lent<'_>,
    t: AnchorsCacheTransaction,
    settings: RangeSettings,
    range: ExternalsRangeReaderState,
    out: &mut [u8],
) -> Result<ReadExternals, Refusal>
    ensures { record { answer = read_answer_of range t result; out = out.new } ≡ check_call lent.entry.tables.now lent.entry.area.now t settings.shard lent.entry.routes.now settings.limits settings.processed settings.timeout settings.mode range out.old }
{
    read_or_check(lent, t, settings, range, false, out)
}
