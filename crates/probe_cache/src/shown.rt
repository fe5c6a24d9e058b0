// The cache's state, in lines that begin with S.
ghost use Rattle.text.specs.Shown.{Puts};

use anchors_cache::{AnchorInfo, AnchorsCacheTransaction, Authored, CachedAnchor};
use rows::MESSAGE_LEN;

// Each byte to 31 times what went before, in 32 bits.
fn digest(start: u32, bytes: &[u8]) -> u32 {
    bytes.iter().fold(start, |digest, byte| {
        digest.wrapping_mul(31).wrapping_add(u32::from(*byte))
    })
}

// Of the messages of an anchor, where they lie wholly in the area.
fn digest_messages(start: u32, area: &[u8], place: usize, count: usize) -> u32 {
    let from = place.saturating_mul(MESSAGE_LEN);
    let to = from.saturating_add(count.saturating_mul(MESSAGE_LEN));
    area.get(from..to)
        .map_or(start, |messages| digest(start, messages))
}

// A cached anchor, with digests of its author and of its messages.
fn put_anchor(out: &mut [u8], at: usize, area: &[u8], found: Authored<CachedAnchor>) -> usize
    ensures { Puts (record { at = at; bytes = out.old }) (record { at = result; bytes = out.new }) }
{
    let anchor = found.value;
    let author = digest(0, &found.author);
    let rest = [
        anchor.chain_time.0,
        anchor.count as u64,
        u64::from(anchor.ours),
        u64::from(digest_messages(author, area, anchor.place, anchor.count)),
    ];
    text::put_joined(out, at, u64::from(anchor.id), &rest)
}

#[tactic(auto, using(text::proofs::Laws::puts_nothing))]
fn put_anchors(
    out: &mut [u8],
    at: usize,
    tables: &[u8],
    area: &[u8],
    t: AnchorsCacheTransaction,
) -> usize
    ensures { Puts (record { at = at; bytes = out.old }) (record { at = result; bytes = out.new }) }
{
    let mut to = at;
    let held = (0..t.cache.len).filter_map(|i| anchors_cache::get(tables, t, i).ok().flatten());
    for found in held {
        to = put_anchor(&mut *out, to, area, found);
    }
    to
}

// An entry of the history, with a digest of its author.
fn put_info(out: &mut [u8], at: usize, found: Authored<AnchorInfo>) -> usize
    ensures { Puts (record { at = at; bytes = out.old }) (record { at = result; bytes = out.new }) }
{
    let info = found.value;
    let rest = [
        info.ct.0,
        u64::from(info.all_exts_count),
        u64::from(info.our_exts_count),
        u64::from(digest(0, &found.author)),
    ];
    text::put_joined(out, at, u64::from(info.id), &rest)
}

#[tactic(auto, using(text::proofs::Laws::puts_nothing))]
fn put_history(out: &mut [u8], at: usize, tables: &[u8], first: usize, len: usize) -> usize
    ensures { Puts (record { at = at; bytes = out.old }) (record { at = result; bytes = out.new }) }
{
    let mut to = at;
    let rows = first..first.saturating_add(len);
    for found in rows.map_while(|i| anchors_cache::history_entry(tables, i)) {
        to = put_info(&mut *out, to, found);
    }
    to
}

// Cached anchors, history and the pending mark.
pub fn put_cache(
    out: &mut [u8],
    at: usize,
    tables: &[u8],
    area: &[u8],
    t: AnchorsCacheTransaction,
) -> usize
    ensures { Puts (record { at = at; bytes = out.old }) (record { at = result; bytes = out.new }) }
{
    let a = text::put(&mut *out, at, b"S cached");
    let b = put_anchors(&mut *out, a, tables, area, t);
    let d = text::put(&mut *out, b, b"\nS history");
    let e = put_history(
        &mut *out,
        d,
        tables,
        t.cache.history_first,
        t.cache.history_len,
    );
    text::put_line(out, e, b"\nS pending", &[u64::from(t.cache.pending)])
}
