// The lines of a session: what each line tells, by `text`, from a place of the lent bytes on.
// The bytes and the place stand side by side, as in `text`: a struct that holds &mut needs a ghost_name clause in each
// function.
#![tactic(auto)]

ghost use Rattle.std.specs.Prelude.{◌≡◌, take};
ghost use Rattle.rows.specs.Rows.{whole_rows};
ghost use Rattle.text.specs.Shown.{show};
ghost use Rattle.lines.specs.Lines.{free_line, entry_line, entry_lines, range_line, range_lines, bad_line, end_line};
ghost use Rattle.range_rules.specs.Rules.{entry_len};

use anchors_cache::AnchorsCache;
use range_rules::{ENTRY_LEN, ExternalsRangeReaderState};
use reader_rules::ExternalsReaderState;

const FREE: [u8; 4] = *b"free";

const ADD: [u8; 3] = *b"add";

const RANGE: [u8; 5] = *b"range";

const BAD: [u8; 3] = *b"bad";

const END: [u8; 3] = *b"end";

// The free places that the last range read reported; no line where none was read.
#[tactic(auto, using(crate::proofs::Laws::free_none), unfolding(crate::specs::Lines::free_line))]
pub fn put_free(out: &mut [u8], at: usize, free: Option<u16>) -> usize
    ensures { record { at = result; bytes = out.new } ≡ show (free_line free) (record { at = at; bytes = out.old }) }
{
    let Some(places) = free else {
        return at;
    };
    text::put_line(out, at, &FREE, &[u64::from(places)])
}

// An entry's fields in the order of its bytes: seqno, partition, anchor id, offset, chain time.
#[tactic(auto, unfolding(crate::specs::Lines::entry_line))]
fn put_entry(out: &mut [u8], at: usize, entry: &[u8]) -> usize
    ensures { record { at = result; bytes = out.new } ≡ show (entry_line entry.now) (record { at = at; bytes = out.old }) }
{
    let numbers = [
        u64::from(rows::num_at::<u32>(entry, 0)),
        u64::from(rows::num_at::<u16>(entry, 4)),
        u64::from(rows::num_at::<u32>(entry, 6)),
        rows::num_at(entry, 10),
        rows::num_at(entry, 18),
    ];
    text::put_line(out, at, &ADD, &numbers)
}

// A line for each whole entry.
#[tactic(auto, using(crate::proofs::Laws::entries_turn, crate::proofs::Laws::entries_end))]
pub fn put_entries(out: &mut [u8], at: usize, entries: &[u8]) -> usize
    ensures { record { at = result; bytes = out.new } ≡ show (entry_lines (whole_rows entry_len entries.now)) (record { at = at; bytes = out.old }) }
{
    let mut to = at;
    for entry in entries.chunks_exact(ENTRY_LEN) {
        to = put_entry(&mut *out, to, entry);
    }
    to
}

// Seqno, "to", position, fully read.
#[tactic(auto, unfolding(crate::specs::Lines::range_line))]
fn put_range(out: &mut [u8], at: usize, range: &ExternalsRangeReaderState) -> usize
    ensures { record { at = result; bytes = out.new } ≡ show (range_line range.now) (record { at = at; bytes = out.old }) }
{
    let numbers = [
        u64::from(range.seqno),
        u64::from(range.to.anchor_id),
        range.to.msgs_offset,
        u64::from(range.current_position.anchor_id),
        range.current_position.msgs_offset,
        u64::from(range.fully_read),
    ];
    text::put_line(out, at, &RANGE, &numbers)
}

// A line for each range.
#[tactic(auto, using(crate::proofs::Laws::ranges_turn, crate::proofs::Laws::ranges_end))]
pub fn put_ranges(out: &mut [u8], at: usize, state: ExternalsReaderState) -> usize
    ensures { record { at = result; bytes = out.new } ≡ show (range_lines (take state.len state.ranges)) (record { at = at; bytes = out.old }) }
{
    let mut to = at;
    for range in state.ranges.iter().take(state.len) {
        to = put_range(&mut *out, to, range);
    }
    to
}

// The record's number, and that of its refusal. A number: here a refusal becomes text.
#[tactic(auto, unfolding(crate::specs::Lines::bad_line))]
pub fn put_bad(out: &mut [u8], at: usize, records: u64, number: u8) -> usize
    ensures { record { at = result; bytes = out.new } ≡ show (bad_line records number) (record { at = at; bytes = out.old }) }
{
    text::put_line(out, at, &BAD, &[records, u64::from(number)])
}

// Cached anchors, history entries, pending.
#[tactic(auto, unfolding(crate::specs::Lines::end_line))]
pub fn put_end(out: &mut [u8], at: usize, cache: AnchorsCache) -> usize
    ensures { record { at = result; bytes = out.new } ≡ show (end_line cache) (record { at = at; bytes = out.old }) }
{
    let numbers = [
        cache.len as u64,
        cache.history_len as u64,
        u64::from(cache.pending),
    ];
    text::put_line(out, at, &END, &numbers)
}
