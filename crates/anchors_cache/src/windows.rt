// What a pop, a trim and an add do to the window. Only an add writes, and only behind the window or, where the table
// ends there, at its start.
ghost use Rattle.std.specs.Prelude.{◌≡◌, ◌+◌, ◌*◌, ◌<◌, ◌≤◌, length};
ghost use Rattle.cache_rules.specs.Rules.{max_anchors, max_anchor_messages, max_history, area_bytes};
ghost use Rattle.anchors_cache.specs.Windows.{info_for, popped_cache, popped_times, trimmed_cache, in_history, history_added, in_cache, anchor_added, messages_added, added_cache, added_tables, added_area, Inside, Sound, Room, Lies, any_places};
ghost use Rattle.anchors_cache.specs.Calls.{anchor_info_of, row_for};

use crate::anchors::Anchors;
use crate::history::History;
use crate::{
    ANCHOR_BYTES, ANCHOR_LEN, AnchorInfo, AnchorsCache, HISTORY_BYTES, INFO_LEN, MempoolAnchor,
    tables,
};
use ext_types::ChainTime;
use rows::MESSAGE_LEN;

pub(crate) fn popped_cache(tables: &[u8], cache: AnchorsCache) -> AnchorsCache
    requires { (Inside tables.now cache) × (cache.base ≤ any_places) }
    ensures { result ≡ popped_cache tables.now cache }
{
    if cache.len == 0 {
        return cache;
    }
    let a = tables::anchor_at(tables, cache.first, 0);
    let left = History::of(tables, cache.history_first, cache.history_len).fresh_len(a.chain_time);
    AnchorsCache {
        first: cache.first + 1,
        len: cache.len - 1,
        history_first: cache.history_first + (cache.history_len - left),
        history_len: left,
        base: cache.base + a.count,
        pending: 1 < cache.len,
    }
}

// Pops, one after the other; those of an empty cache change nothing.
pub(crate) fn popped_times(tables: &[u8], cache: AnchorsCache, count: usize) -> AnchorsCache
    requires { Lies tables.now cache }
    ensures { result ≡ popped_times count tables.now cache }
{
    let mut c = cache;
    for _ in 0..count.min(cache.len) {
        c = popped_cache(tables, c);
    }
    c
}

#[tactic(auto, using(std::proofs::lemmas::Bool::Decides::nat_tests), unfolding(crate::specs::Windows::trimmed_cache))]
pub(crate) fn trimmed_cache(tables: &[u8], cache: AnchorsCache, ct: ChainTime) -> AnchorsCache
    requires { Inside tables.now cache }
    ensures { result ≡ trimmed_cache ct.0 tables.now cache }
{
    let left = Anchors::of(tables, cache.first, cache.len).kept_len(ct);
    AnchorsCache {
        len: left,
        history_len: History::of(tables, cache.history_first, cache.history_len).kept_len(ct),
        pending: if left < cache.len {
            0 < left
        } else {
            cache.pending
        },
        ..cache
    }
}

// The window and the tables with one history entry more.
pub(crate) fn in_history(c: AnchorsCache, tables: &mut [u8], row: &[u8]) -> AnchorsCache
    requires { (Inside tables.old c) × (length row.now ≡ 52) × (c.history_len < max_history) }
    ensures { (result ≡ in_history c) × (tables.new ≡ history_added row.now c tables.old) }
{
    let at = rows::append(
        tables,
        0,
        INFO_LEN * c.history_first,
        INFO_LEN * c.history_len,
        HISTORY_BYTES,
        row,
    );
    AnchorsCache {
        history_first: at.placed(c.history_first),
        history_len: c.history_len + 1,
        ..c
    }
}

// The window, the tables and the message area with one anchor more; `used` messages are there already.
fn in_cache(
    c: AnchorsCache,
    used: usize,
    tables: &mut [u8],
    area: &mut [u8],
    row: &[u8],
    messages: &[u8],
) -> AnchorsCache
    requires { (Inside tables.old c)
        × (area_bytes ≤ length area.old)
        × (length row.now ≡ 50)
        × (c.len < max_anchors)
        × (33 * (c.base + used) ≤ length area.old)
        × (33 * used + length messages.now ≤ area_bytes) }
    ensures { (result ≡ in_cache (length area.old) (length messages.now) used c)
        × (tables.new ≡ anchor_added row.now c tables.old)
        × (area.new ≡ messages_added messages.now used c area.old) }
{
    let at = rows::append(
        tables,
        HISTORY_BYTES,
        ANCHOR_LEN * c.first,
        ANCHOR_LEN * c.len,
        ANCHOR_BYTES,
        row,
    );
    let n = area.len();
    let (begin, held) = (MESSAGE_LEN * c.base, MESSAGE_LEN * used);
    let from = rows::append(area, 0, begin, held, n, messages);
    AnchorsCache {
        first: at.placed(c.first),
        len: c.len + 1,
        base: from.placed(c.base),
        pending: true,
        ..c
    }
}

// An anchor's history entry, of k bytes of messages. The anchor, ours and the messages are no struct (no plainer): one
// function needs the messages, the others their length.
fn from_anchor(anchor: MempoolAnchor, ours: u32, k: usize) -> AnchorInfo
    requires { k ≤ 33 * max_anchor_messages }
    ensures { result ≡ anchor_info_of (info_for (row_for anchor ours k)) }
{
    AnchorInfo {
        id: anchor.id,
        ct: anchor.chain_time,
        all_exts_count: (k / MESSAGE_LEN) as u32,
        our_exts_count: ours,
    }
}

// An anchor to the history always, to the cache where ours is above 0.
pub(crate) fn added_cache(
    c: AnchorsCache,
    tables: &mut [u8],
    area: &mut [u8],
    anchor: MempoolAnchor,
    ours: u32,
    messages: &[u8],
) -> AnchorsCache
    requires { (Sound tables.old area.old c) × (Room tables.old c ours messages.now) }
    ensures { let a = row_for anchor ours (length messages.now) in
        (result ≡ added_cache a (length area.old) (length messages.now) tables.old c)
        × (tables.new ≡ added_tables a c tables.old)
        × (area.new ≡ added_area a messages.now tables.old c area.old) }
{
    let used = Anchors::of(&*tables, c.first, c.len).count();
    let k = messages.len();
    let e = from_anchor(anchor, ours, k);
    let info = tables::info_row(e, anchor.author);
    let d = in_history(c, tables, &info);
    if ours == 0 {
        return d;
    }
    let row = tables::anchor_row(anchor, ours, k);
    in_cache(d, used, tables, area, &row, messages)
}
