// History entries and cached anchors that are put without a call: a record's payload is the row.
ghost use Rattle.std.specs.Prelude.{◌≡◌, length, nat_le};
ghost use Rattle.rows.specs.Rows.{pick};
ghost use Rattle.anchors_cache.specs.Answers.{done_of};
ghost use Rattle.anchors_cache.specs.Calls.{on_zero, answer, with_cache, add_info_call};
ghost use Rattle.cache_rules.specs.Rules.{max_history};

use anchors_cache::{
    ANCHOR_BYTES, ANCHOR_LEN, AnchorInfo, AnchorsCache, AnchorsCacheTransaction, HISTORY_BYTES,
    INFO_LEN,
};
use cache_rules::{AREA_BYTES, MAX_ANCHOR_MESSAGES, MAX_ANCHORS, MAX_HISTORY, MAX_MESSAGES};
use ext_types::ChainTime;
use refusals::Refusal;
use rows::MESSAGE_LEN;

// A history entry: the record's payload is its row.
fn with_info(tables: &mut [u8], c: AnchorsCache, p: &[u8]) -> AnchorsCache {
    if MAX_HISTORY < c.history_first || MAX_HISTORY <= c.history_len {
        return c;
    }
    let at = rows::append(
        tables,
        0,
        INFO_LEN * c.history_first,
        INFO_LEN * c.history_len,
        HISTORY_BYTES,
        p,
    );
    AnchorsCache {
        history_first: at.placed(c.history_first),
        history_len: c.history_len + 1,
        ..c
    }
}

// Refused with 9 where a transaction is open, with 5 where there is no place.
#[tactic(auto, using(std::proofs::lemmas::Bool::Decides::nat_tests), unfolding(anchors_cache::specs::Calls::answer))]
pub fn append_info(
    tables: &mut [u8],
    t: AnchorsCacheTransaction,
    p: &[u8],
) -> Result<AnchorsCacheTransaction, Refusal>
    ensures { let done = done_of t result in
        (done.number ≡ pick t.active 9 (pick (nat_le max_history t.cache.history_len) 5 0))
        × (done ≡ answer done.number t (with_cache t done.state.cache))
        × (on_zero done.number tables.old tables.new ≡ tables.old) }
{
    if t.active {
        return Err(Refusal::TransactionOpenOrNone);
    }
    if MAX_HISTORY <= t.cache.history_len {
        return Err(Refusal::StateUnsound);
    }
    let cache = with_info(tables, t.cache, p);
    Ok(AnchorsCacheTransaction { cache, ..t })
}

// The call that does so: the payload's fields. `history_row` takes whole tables alone, and the payload is one row of
// them (no plainer).
pub fn add_info(
    tables: &mut [u8],
    area: &[u8],
    t: AnchorsCacheTransaction,
    p: &[u8],
) -> Result<AnchorsCacheTransaction, Refusal>
    ensures { done_of t result ≡ add_info_call (length area.now) tables.old t }
{
    let author = p
        .get(20..)
        .unwrap_or_default()
        .try_into()
        .unwrap_or_default();
    let info = AnchorInfo {
        id: rows::num_at(p, 0),
        ct: ChainTime(rows::num_at(p, 4)),
        all_exts_count: rows::num_at(p, 12),
        our_exts_count: rows::num_at(p, 16),
    };
    anchors_cache::add_imported_anchor_info(tables, area, t, info, author)
}

// The messages of the cached anchors. No sum of a cache that is sound comes near the largest number.
fn used_by(tables: &[u8], c: AnchorsCache) -> usize {
    (c.first..c.first.saturating_add(c.len)).fold(0usize, |used, i| {
        used.saturating_add(anchors_cache::cached_row(tables, i, 0).count)
    })
}

// The id is above that of the last cached anchor.
fn is_above(tables: &[u8], c: AnchorsCache, id: u32) -> bool {
    c.len == 0 || anchors_cache::cached_row(tables, c.first.saturating_add(c.len - 1), 0).id < id
}

// Ours above 0 and at most the count, which is at most 512.
fn is_sound(ours: u32, count: u16) -> bool {
    0 < ours && ours <= u32::from(count) && usize::from(count) <= MAX_ANCHOR_MESSAGES
}

// Question 5 of an anchor that is put.
fn has_place(tables: &[u8], c: AnchorsCache, row: &[u8]) -> bool {
    let count = rows::num_at::<u16>(row, 48);
    is_sound(rows::num_at::<u32>(row, 44), count)
        && is_above(tables, c, rows::num_at::<u32>(row, 0))
        && c.len < MAX_ANCHORS
        && rows::sum_within(used_by(tables, c), usize::from(count), MAX_MESSAGES)
}

// The row and the messages; `used` messages are there already.
fn with_anchor(
    tables: &mut [u8],
    area: &mut [u8],
    c: AnchorsCache,
    used: usize,
    row: &[u8],
    messages: &[u8],
) -> AnchorsCache {
    let in_tables = c.first <= MAX_ANCHORS && c.len < MAX_ANCHORS;
    if !in_tables || MAX_MESSAGES < c.base || MAX_MESSAGES < used {
        return c;
    }
    let at = rows::append(
        tables,
        HISTORY_BYTES,
        ANCHOR_LEN * c.first,
        ANCHOR_LEN * c.len,
        ANCHOR_BYTES,
        row,
    );
    let from = rows::append(
        area,
        0,
        MESSAGE_LEN * c.base,
        MESSAGE_LEN * used,
        AREA_BYTES,
        messages,
    );
    AnchorsCache {
        first: at.placed(c.first),
        len: c.len + 1,
        base: from.placed(c.base),
        pending: true,
        ..c
    }
}

// A cached anchor: the payload begins with its row.
// Refused with 9 where a transaction is open, with 5 where it is not as question 5 wants it.
#[tactic(auto, using(std::proofs::lemmas::Bool::Decides::nat_tests), unfolding(anchors_cache::specs::Calls::answer))]
pub fn append_anchor(
    tables: &mut [u8],
    area: &mut [u8],
    t: AnchorsCacheTransaction,
    p: &[u8],
) -> Result<AnchorsCacheTransaction, Refusal>
    ensures { let done = done_of t result in
        (pick t.active done.number 9 ≡ 9)
        × (done ≡ answer done.number t (with_cache t done.state.cache))
        × (on_zero done.number tables.old tables.new ≡ tables.old)
        × (on_zero done.number area.old area.new ≡ area.old) }
{
    if t.active {
        return Err(Refusal::TransactionOpenOrNone);
    }
    let Some((row, messages)) = p.split_at_checked(ANCHOR_LEN) else {
        return Err(Refusal::StateUnsound);
    };
    if !has_place(&*tables, t.cache, row) {
        return Err(Refusal::StateUnsound);
    }
    let used = used_by(&*tables, t.cache);
    let cache = with_anchor(tables, area, t.cache, used, row, messages);
    Ok(AnchorsCacheTransaction { cache, ..t })
}
