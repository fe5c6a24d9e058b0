// The ranges' turns in a read of all: which ranges are read, how, and what becomes of the rest.
// `write` is a flag (no plainer): both runs take the same turns, and only a range's read asks it.
// Arrays of a struct go to another one by a local: a field that is an array can't be moved out beside the others
// (tried: the borrow checker refuses it).
ghost use Rattle.std.specs.Prelude.{ℕ, List, length, ◌++◌, ◌+◌, ◌<◌, ◌^◌, ◌≡◌, not, ◌&&◌, eqb, get_or};
ghost use Rattle.range_reader.specs.Ready.{Tells};
ghost use Rattle.range_reader.specs.Calls.{read_answer_of};
ghost use Rattle.range_rules.specs.declared.ExternalsRangeReaderState.{ExternalsRangeReaderState};
ghost use Rattle.reader_rules.specs.Rules.{skip_offset_of, reached, before_skip_offsets, waits, is_skipped, mode_for, settled, sums, counts_added, turns, ranges_read, read_of, time_saved, nothing_read, at_entry};
ghost use Rattle.range_rules.specs.Rules.{silent};
ghost use Rattle.externals_reader.specs.Calls.{told, window_read};
ghost use Rattle.externals_reader.specs.Locals.{turn_done};
ghost use Rattle.externals_reader.specs.Ready.{so_far_told, done_told, answer_told, ranges_tell, turns_tell, Addable, TurnReady, RangeWrote, TurnRoom, Start, TurnWrote};

use crate::{RangesRead, SoFar, TurnDone, next};
use anchors_cache::AnchorsCacheTransaction;
use ext_types::ChainTime;
use messages_buffer::ExternalsPartitionRangeReaderState;
use range_reader::{Lent, RangeSettings, ReadExternals};
use range_rules::{ExternalsRangeReaderState, NO_COUNTS, ReadCounts, ReadNextExternalsMode};
use reader_rules::{
    ExternalsPartitionReaderState, ExternalsReaderState, Fixed, GetNextMessageGroupMode,
};
use refusals::Refusal;
use std::array;

fn nothing_read() -> SoFar
    ensures { so_far_told result ≡ nothing_read }
{
    SoFar {
        pops: 0,
        used: 0,
        all_read: true,
        stopped: false,
        free: None,
        last: None,
        counts: NO_COUNTS,
    }
}

// The first, if it is a time.
pub(crate) fn time_saved(last: Option<ChainTime>, saved: Option<ChainTime>) -> Option<ChainTime>
    ensures { result ≡ time_saved last saved }
{
    last.or(saved)
}

fn summed(a: [u32; 8], b: [u32; 8]) -> [u32; 8]
    requires { (i : ℕ) → get_or a i 0 + get_or b i 0 < 2 ^ 32 }
    ensures { result ≡ sums a b }
{
    array::from_fn(|i| a[i] + b[i])
}

fn added(a: ReadCounts, b: ReadCounts) -> ReadCounts
    requires { Addable a b }
    ensures { result ≡ counts_added a b }
{
    ReadCounts {
        read: summed(a.read, b.read),
        expired: summed(a.expired, b.expired),
        buffered: summed(a.buffered, b.buffered),
    }
}

// The range's skip offset, 0 if it lacks the partition.
fn skip_offset_of(p: ExternalsPartitionRangeReaderState) -> u32
    ensures { result ≡ skip_offset_of p }
{
    if p.present { p.skip_offset } else { 0 }
}

// In every partition of the reader the current offset is below the range's skip offset.
fn before_skip_offsets(
    parts: [ExternalsPartitionReaderState; 8],
    of_range: [ExternalsPartitionRangeReaderState; 8],
) -> bool
    ensures { result ≡ before_skip_offsets parts of_range }
{
    !parts.iter().zip(&of_range).any(|(p, q)| reached(*p, *q))
}

fn reached(p: ExternalsPartitionReaderState, q: ExternalsPartitionRangeReaderState) -> bool
    ensures { result ≡ reached p q }
{
    p.present && skip_offset_of(q) <= p.curr_processed_offset
}

// In `Refill` the block's own range waits.
fn waits(mode: GetNextMessageGroupMode, own: bool) -> bool
    ensures { result ≡ waits mode own }
{
    match mode {
        GetNextMessageGroupMode::Refill => own,
        GetNextMessageGroupMode::Continue => false,
    }
}

// A range that is not fully read and yet not read now.
#[tactic(auto, using(std::proofs::lemmas::Bool::Decides::nat_tests), unfolding(reader_rules::specs::Rules::is_skipped))]
fn is_skipped(x: Fixed, range: ExternalsRangeReaderState) -> bool
    ensures { result ≡ is_skipped x range }
{
    waits(x.mode, range.seqno == x.block_seqno)
        || before_skip_offsets(x.by_partitions, range.by_partitions)
}

// The block's own range is read to the end, others to where they were read before.
#[tactic(auto, using(std::proofs::lemmas::Bool::Decides::nat_tests), unfolding(reader_rules::specs::Rules::mode_for))]
fn mode_for(x: Fixed, seqno: u32) -> ReadNextExternalsMode
    ensures { result ≡ mode_for x seqno }
{
    if seqno == x.block_seqno {
        ReadNextExternalsMode::ToTheEnd
    } else {
        ReadNextExternalsMode::ToPreviuosReadTo
    }
}

// The block's own range, fully read: position and "to" become the end of the last imported anchor.
#[tactic(auto, using(std::proofs::lemmas::Bool::Decides::nat_tests), unfolding(reader_rules::specs::Rules::settled))]
fn settled(x: Fixed, range: ExternalsRangeReaderState) -> ExternalsRangeReaderState
    ensures { result ≡ settled x range }
{
    if !range.fully_read || range.seqno != x.block_seqno {
        return range;
    }
    let Some(key) = x.imported else {
        return range;
    };
    ExternalsRangeReaderState {
        current_position: key,
        to: key,
        ..range
    }
}

// One range's read, at the first free place of the output: the public one-range read, or what it would answer.
#[tactic(auto, using(crate::proofs::TurnLaws::range_told))]
fn range_turn(
    lent: Lent<'_>,
    t: AnchorsCacheTransaction,
    x: Fixed,
    range: ExternalsRangeReaderState,
    write: bool,
    out: &mut [u8],
) -> Result<ReadExternals, Refusal>
    ensures { RangeWrote write lent.entry.tables.now lent.entry.area.now t lent.entry.routes.now x range out.old out.new (read_answer_of range t result) }
{
    let limits = x.limits;
    let processed = x.processed;
    let settings = RangeSettings {
        shard: x.shard,
        limits,
        processed,
        timeout: x.params.externals_expire_timeout,
        mode: mode_for(x, range.seqno),
    };
    if write {
        range_reader::read_externals_into_buffers(lent, t, settings, range, out)
    } else {
        range_reader::check_read_externals(lent, t, settings, range, out)
    }
}

// What a range's read makes of what the turns before came to. How the range was before is no part of that.
#[tactic(auto, using(crate::proofs::TurnLaws::done_read))]
fn after_turn(x: Fixed, s: SoFar, read: ReadExternals) -> TurnDone
    requires { TurnReady (so_far_told s) (answer_told read) }
    ensures { (range : ExternalsRangeReaderState) → done_told result ≡ turn_done x (so_far_told s) range (told (answer_told read)) }
{
    TurnDone {
        so_far: SoFar {
            pops: s.pops + read.pops,
            used: s.used + read.used,
            all_read: all_read(s.all_read, read.range.fully_read),
            stopped: stops(read.free, read.range.fully_read),
            free: Some(read.free),
            last: read.last_chain_time,
            counts: added(s.counts, read.counts),
        },
        range: settled(x, read.range),
    }
}

fn all_read(so_far: bool, now: bool) -> bool
    ensures { result ≡ (so_far && «now») }
{
    so_far && now
}

// A full buffer in a range not fully read ends the call.
fn stops(free: u16, fully_read: bool) -> bool
    ensures { result ≡ (eqb free 0 && not fully_read) }
{
    free == 0 && !fully_read
}

// The turn of a range, wherever it stands among the others.
// `unwrap_or` drops a refusal (no plainer): the rules read on from the transaction that refused pops leave.
fn turn(
    lent: Lent<'_>,
    t: AnchorsCacheTransaction,
    x: Fixed,
    s: SoFar,
    range: ExternalsRangeReaderState,
    write: bool,
    out: &mut [u8],
) -> Result<TurnDone, Refusal>
    requires { TurnRoom x (so_far_told s) out.old }
    ensures { TurnWrote write (window_read lent.entry.tables.now lent.entry.area.now t lent.entry.routes.now x) x (so_far_told s) range out.old out.new result }
{
    if range.fully_read {
        return Ok(TurnDone { so_far: s, range });
    }
    if is_skipped(x, range) {
        return Ok(TurnDone {
            so_far: SoFar {
                all_read: false,
                ..s
            },
            range,
        });
    }
    let now = anchors_cache::pop_fronts(lent.tables, lent.area, t, s.pops).unwrap_or(t);
    let read = range_turn(lent, now, x, range, write, &mut out[s.used..])?;
    Ok(after_turn(x, s, read))
}

// Every range in turn, in place, until one is refused or a full buffer stops the read; whatever stands behind them.
fn turns_taken(
    lent: Lent<'_>,
    t: AnchorsCacheTransaction,
    x: Fixed,
    ranges: &mut [ExternalsRangeReaderState],
    write: bool,
    out: &mut [u8],
) -> Result<SoFar, Refusal>
    requires { Start x (read_of nothing_read ranges.old (length ranges.old)) out.old }
    ensures { (rest : List ExternalsRangeReaderState) → Tells write 0 out.old out.new (turns_tell (ranges.new ++ rest) (length ranges.old) result) (turns (window_read lent.entry.tables.now lent.entry.area.now t lent.entry.routes.now x) x (length ranges.old) 0 (silent (read_of nothing_read (ranges.old ++ rest) (length ranges.old)))) }
{
    let mut s = nothing_read();
    for range in ranges {
        if s.stopped {
            break;
        }
        let done = turn(lent, t, x, s, *range, write, &mut *out)?;
        *range = done.range;
        s = done.so_far;
    }
    Ok(s)
}

// Every range in turn; where all are fully read, the next one, if one is wanted.
pub(crate) fn ranges_read(
    lent: Lent<'_>,
    t: AnchorsCacheTransaction,
    x: Fixed,
    start: ExternalsReaderState,
    write: bool,
    out: &mut [u8],
) -> Result<RangesRead, Refusal>
    requires { Start x (at_entry start) out.old }
    ensures { Tells write 0 out.old out.new (ranges_tell result) (ranges_read (window_read lent.entry.tables.now lent.entry.area.now t lent.entry.routes.now x) x (at_entry start)) }
{
    let mut ranges = start.ranges;
    let len = start.len;
    let so_far = turns_taken(lent, t, x, &mut ranges[..len], write, &mut *out)?;
    let last = next::last_range(&ranges, len);
    if !next::wants_next(x, so_far, last, len) {
        return Ok(RangesRead {
            so_far,
            ranges,
            len,
        });
    }
    let fresh = next::appended_range(x, last);
    let more = turn(lent, t, x, so_far, fresh, write, out)?;
    ranges[len] = more.range;
    Ok(RangesRead {
        so_far: more.so_far,
        ranges,
        len: len + 1,
    })
}
