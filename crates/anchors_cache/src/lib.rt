// The anchors cache and its transaction. The tables and the message area are lent by the host; the cache by value is a
// window on them.
// Every call asks document 01's questions of what it is handed; a refused call answers a `Refusal` and changes nothing.
// `(tables, area, t)` go side by side: C interface, the host lends each. The calls of one shape are written out (no
// plainer): each asks its own questions and makes its own change, and a closure would carry both.
#![tactic(auto)]

ghost use Rattle.std.specs.Prelude.{Ok, ◌≡◌, ◌+◌, ◌*◌, ◌<◌, ◌≤◌, length};
ghost use Rattle.rows.specs.Rows.{pick};
ghost use Rattle.cache_rules.specs.Rules.{max_history, max_anchors, last_of};
ghost use Rattle.anchors_cache.specs.Tables.{tables_bytes, info_row, anchors, infos};
ghost use Rattle.anchors_cache.specs.Windows.{history_added, added_tables, added_area, any_places};
ghost use Rattle.refusals.specs.Refusals.{number};
ghost use Rattle.anchors_cache.specs.Answers.{done_of, popped_of, trimmed_of, anchor_answer_of, info_answer_of, id_answer_of, flag_answer_of};
ghost use Rattle.anchors_cache.specs.Calls.{with_cache, on_zero, row_for, info_with, add_info_number, add_info_call, add_number, add_call, refusal, row_at, info_row_at, pop_call, pops_call, trim_call, clear_call, open_call, commit_call, rollback_call, close_call, last_info_call, info_at_ct_call, last_id_call, get_call, pending_call, pending_in_range_call, entry_at, shown_info, closed_transaction};

use anchors::Anchors;
use cache_rules::{AUTHOR_BYTES, MAX_ANCHORS, MAX_HISTORY};
use ext_types::{ChainTime, ExternalKey};
use history::History;
use refusals::Refusal;

mod anchors;
mod history;
mod questions;
mod tables;
mod windows;

// The bytes of a history entry's row, and of a cached anchor's.
pub const INFO_LEN: usize = 52;

pub const ANCHOR_LEN: usize = 50;

// The lent tables: rows of history, then rows of cached anchors.
pub const HISTORY_BYTES: usize = INFO_LEN * MAX_HISTORY;

pub const ANCHOR_BYTES: usize = ANCHOR_LEN * MAX_ANCHORS;

pub const TABLES_BYTES: usize = HISTORY_BYTES + ANCHOR_BYTES;

// Where the cached anchors and the imported history stand in the tables, and the first cached message in the area, in
// rows and messages. Numbers and no slices: C interface, fixed memory; the host keeps them between calls.
#[repr(C)]
#[derive(Clone, Copy, Debug, PartialEq, Eq)]
pub struct AnchorsCache {
    pub first: usize,
    pub len: usize,
    pub history_first: usize,
    pub history_len: usize,
    pub base: usize,
    pub pending: bool,
}

// `undo` is what a rollback restores; it and the mark mean nothing while no transaction is open. Flags and no enum:
// C interface, document 01 names the forms.
#[repr(C)]
#[derive(Clone, Copy, Debug, PartialEq, Eq)]
pub struct AnchorsCacheTransaction {
    pub cache: AnchorsCache,
    pub undo: AnchorsCache,
    pub active: bool,
    pub committed: bool,
}

// An anchor as it is imported, beside its messages.
#[repr(C)]
#[derive(Clone, Copy, Debug, PartialEq, Eq)]
pub struct MempoolAnchor {
    pub id: u32,
    pub chain_time: ChainTime,
    pub author: [u8; AUTHOR_BYTES],
}

// A cached anchor; its `count` messages stand in the area from `place` on, in messages.
#[repr(C)]
#[derive(Clone, Copy, Debug, PartialEq, Eq)]
pub struct CachedAnchor {
    pub id: u32,
    pub chain_time: ChainTime,
    pub ours: u32,
    pub count: usize,
    pub place: usize,
}

// An entry of the imported history.
#[repr(C)]
#[derive(Clone, Copy, Debug, PartialEq, Eq)]
pub struct AnchorInfo {
    pub id: u32,
    pub ct: ChainTime,
    pub all_exts_count: u32,
    pub our_exts_count: u32,
}

// A value, and who wrote it.
#[derive(Clone, Copy, Debug, PartialEq, Eq)]
pub struct Authored<T> {
    pub value: T,
    pub author: [u8; AUTHOR_BYTES],
}

// What a call answers, and the transaction that it leaves.
#[derive(Clone, Copy, Debug, PartialEq, Eq)]
pub struct After<T> {
    pub answer: T,
    pub state: AnchorsCacheTransaction,
}

// What stands for an anchor and an entry where there is none.
pub const ZERO_ANCHOR: CachedAnchor = CachedAnchor {
    id: 0,
    chain_time: ChainTime(0),
    ours: 0,
    count: 0,
    place: 0,
};

pub const ZERO_INFO: AnchorInfo = AnchorInfo {
    id: 0,
    ct: ChainTime(0),
    all_exts_count: 0,
    our_exts_count: 0,
};

const NO_CACHE: AnchorsCache = AnchorsCache {
    first: 0,
    len: 0,
    history_first: 0,
    history_len: 0,
    base: 0,
    pending: false,
};

// An empty cache, and no transaction open.
pub fn new() -> AnchorsCacheTransaction
    ensures { result ≡ closed_transaction }
{
    AnchorsCacheTransaction {
        cache: NO_CACHE,
        undo: NO_CACHE,
        active: false,
        committed: false,
    }
}

// Questions 1 and 5, for a reader that goes on by rows.
pub fn check_cache(tables: &[u8], area: &[u8], t: AnchorsCacheTransaction) -> Result<(), Refusal>
    ensures { number result ≡ refusal (length area.now) tables.now t }
{
    questions::check(tables, area.len(), t)
}

// One row of the anchors' table, with the place that is given; past the table every number is 0.
// Zeros and no `Option`: rule of the project, what the function promised stays.
#[tactic(auto, using(std::proofs::lemmas::Bool::Decides::nat_tests), unfolding(crate::specs::Calls::row_at))]
pub fn cached_row(tables: &[u8], i: usize, place: usize) -> CachedAnchor
    ensures { result ≡ row_at i place tables.now }
{
    if tables::has_row(tables, i, MAX_ANCHORS) {
        return tables::anchor_at(tables, i, place);
    }
    CachedAnchor {
        place,
        ..ZERO_ANCHOR
    }
}

// One row of the history; past the table every number is 0, as of `cached_row`. `history_entry` answers an `Option`.
#[tactic(auto, using(std::proofs::lemmas::Bool::Decides::nat_tests), unfolding(crate::specs::Calls::info_row_at))]
pub fn history_row(tables: &[u8], i: usize) -> AnchorInfo
    ensures { result ≡ info_row_at i tables.now }
{
    if tables::has_row(tables, i, MAX_HISTORY) {
        return tables::info_at(tables, i);
    }
    ZERO_INFO
}

// The same with who wrote it; past the table there is none.
#[tactic(auto, using(std::proofs::lemmas::Bool::Decides::nat_tests), unfolding(crate::specs::Calls::shown_info))]
pub fn history_entry(tables: &[u8], i: usize) -> Option<Authored<AnchorInfo>>
    ensures { info_answer_of (Ok result) ≡ shown_info (entry_at i tables.now) }
{
    if !tables::has_row(tables, i, MAX_HISTORY) {
        return None;
    }
    Some(tables::entry_at(tables, i))
}

// The transaction with another cache.
fn with_cache(t: AnchorsCacheTransaction, cache: AnchorsCache) -> AnchorsCacheTransaction
    ensures { result ≡ with_cache t cache }
{
    AnchorsCacheTransaction { cache, ..t }
}

// An entry to the history alone.
pub fn add_imported_anchor_info(
    tables: &mut [u8],
    area: &[u8],
    t: AnchorsCacheTransaction,
    anchor_info: AnchorInfo,
    author: [u8; AUTHOR_BYTES],
) -> Result<AnchorsCacheTransaction, Refusal>
    ensures { let row = info_row (info_with anchor_info author) in
        let number = add_info_number (length area.now) tables.old t in
        (done_of t result ≡ add_info_call (length area.now) tables.old t)
        × (tables.new ≡ on_zero number (history_added row t.cache tables.old) tables.old) }
{
    questions::check_add_info(tables, area.len(), t)?;
    let row = tables::info_row(anchor_info, author);
    Ok(with_cache(t, windows::in_history(t.cache, tables, &row)))
}

// An anchor to the history always, to the cache where ours is above 0.
pub fn add(
    tables: &mut [u8],
    area: &mut [u8],
    t: AnchorsCacheTransaction,
    anchor: MempoolAnchor,
    our_exts_count: u32,
    messages: &[u8],
) -> Result<AnchorsCacheTransaction, Refusal>
    ensures { let a = row_for anchor our_exts_count (length messages.now) in
        let number = add_number (length area.old) tables.old t anchor.id our_exts_count (length messages.now) in
        (done_of t result ≡ add_call number a (length area.old) (length messages.now) tables.old t)
        × (tables.new ≡ on_zero number (added_tables a t.cache tables.old) tables.old)
        × (area.new ≡ on_zero number (added_area a messages.now tables.old t.cache area.old) area.old) }
{
    questions::check_add(
        tables,
        area.len(),
        t,
        anchor.id,
        our_exts_count,
        messages.len(),
    )?;
    let cache = windows::added_cache(t.cache, tables, area, anchor, our_exts_count, messages);
    Ok(with_cache(t, cache))
}

// The front anchor goes, then stale history.
#[tactic(auto, using(crate::proofs::Refused::refused), unfolding(crate::specs::Calls::pop_call, crate::specs::Calls::pop_answer))]
pub fn pop_front(
    tables: &[u8],
    area: &[u8],
    t: AnchorsCacheTransaction,
) -> Result<After<Option<Authored<CachedAnchor>>>, Refusal>
    ensures { popped_of t result ≡ pop_call (length area.now) tables.now t }
{
    questions::check(tables, area.len(), t)?;
    let c = t.cache;
    let state = with_cache(t, windows::popped_cache(tables, c));
    let answer = Anchors::of(tables, c.first, c.len).shown(c.base, 0);
    Ok(After { answer, state })
}

// So many pops at once, as far as there are anchors.
#[tactic(auto, using(crate::proofs::Refused::refused), unfolding(crate::specs::Calls::pops_call, crate::specs::Calls::answer))]
pub fn pop_fronts(
    tables: &[u8],
    area: &[u8],
    t: AnchorsCacheTransaction,
    count: usize,
) -> Result<AnchorsCacheTransaction, Refusal>
    ensures { done_of t result ≡ pops_call (length area.now) count tables.now t }
{
    questions::check(tables, area.len(), t)?;
    Ok(with_cache(t, windows::popped_times(tables, t.cache, count)))
}

// Cached anchors and history entries above ct go from the back, never the last history entry.
#[tactic(auto, using(crate::proofs::Refused::refused), unfolding(crate::specs::Calls::trim_call, crate::specs::Calls::trim_answer))]
pub fn remove_last_imported_above(
    tables: &[u8],
    area: &[u8],
    t: AnchorsCacheTransaction,
    ct: ChainTime,
) -> Result<After<Option<Authored<AnchorInfo>>>, Refusal>
    ensures { trimmed_of t result ≡ trim_call (length area.now) ct.0 tables.now t }
{
    questions::check(tables, area.len(), t)?;
    let c = windows::trimmed_cache(tables, t.cache, ct);
    let answer = History::of(tables, c.history_first, c.history_len).last();
    Ok(After {
        answer,
        state: with_cache(t, c),
    })
}

// The cache is emptied; no transaction may be open.
#[tactic(auto, using(crate::proofs::Refused::refused), unfolding(crate::specs::Calls::clear_call, crate::specs::Calls::answer))]
pub fn clear(
    tables: &[u8],
    area: &[u8],
    t: AnchorsCacheTransaction,
) -> Result<AnchorsCacheTransaction, Refusal>
    ensures { done_of t result ≡ clear_call (length area.now) tables.now t }
{
    questions::check_at(tables, area.len(), t, false)?;
    Ok(with_cache(t, NO_CACHE))
}

#[tactic(auto, using(crate::proofs::Refused::refused), unfolding(crate::specs::Calls::open_call, crate::specs::Calls::answer))]
pub fn open(
    tables: &[u8],
    area: &[u8],
    t: AnchorsCacheTransaction,
) -> Result<AnchorsCacheTransaction, Refusal>
    ensures { done_of t result ≡ open_call (length area.now) tables.now t }
{
    questions::check_at(tables, area.len(), t, false)?;
    Ok(AnchorsCacheTransaction {
        cache: t.cache,
        undo: t.cache,
        active: true,
        committed: false,
    })
}

// Sets the mark, and ends nothing.
#[tactic(auto, using(crate::proofs::Refused::refused), unfolding(crate::specs::Calls::commit_call, crate::specs::Calls::answer))]
pub fn commit(
    tables: &[u8],
    area: &[u8],
    t: AnchorsCacheTransaction,
) -> Result<AnchorsCacheTransaction, Refusal>
    ensures { done_of t result ≡ commit_call (length area.now) tables.now t }
{
    questions::check_at(tables, area.len(), t, true)?;
    Ok(AnchorsCacheTransaction {
        committed: true,
        ..t
    })
}

// The cache as it was opened; the mark stays.
#[tactic(auto, using(crate::proofs::Refused::refused), unfolding(crate::specs::Calls::rollback_call, crate::specs::Calls::answer))]
pub fn rollback(
    tables: &[u8],
    area: &[u8],
    t: AnchorsCacheTransaction,
) -> Result<AnchorsCacheTransaction, Refusal>
    ensures { done_of t result ≡ rollback_call (length area.now) tables.now t }
{
    questions::check_at(tables, area.len(), t, true)?;
    Ok(with_cache(t, t.undo))
}

// What a close keeps.
fn kept(committed: bool, present: AnchorsCache, opening: AnchorsCache) -> AnchorsCache
    ensures { result ≡ pick committed present opening }
{
    if committed { present } else { opening }
}

// The Rust's drop: a rollback, unless the mark was ever set.
#[tactic(auto, using(crate::proofs::Refused::refused), unfolding(crate::specs::Calls::close_call, crate::specs::Calls::answer))]
pub fn close(
    tables: &[u8],
    area: &[u8],
    t: AnchorsCacheTransaction,
) -> Result<AnchorsCacheTransaction, Refusal>
    ensures { done_of t result ≡ close_call (length area.now) tables.now t }
{
    questions::check_at(tables, area.len(), t, true)?;
    Ok(AnchorsCacheTransaction {
        cache: kept(t.committed, t.cache, t.undo),
        active: false,
        ..t
    })
}

#[tactic(auto, using(crate::proofs::Refused::refused), unfolding(crate::specs::Calls::last_info_call, crate::specs::Calls::info_answer))]
pub fn last_imported_anchor_info(
    tables: &[u8],
    t: AnchorsCacheTransaction,
) -> Result<Option<Authored<AnchorInfo>>, Refusal>
    ensures { info_answer_of result ≡ last_info_call tables.now t }
{
    questions::check_seen(tables, t)?;
    let c = t.cache;
    Ok(History::of(tables, c.history_first, c.history_len).last())
}

// The entry that a trim at ct would leave last.
#[tactic(auto, using(crate::proofs::Refused::refused), unfolding(crate::specs::Calls::info_at_ct_call, crate::specs::Calls::info_answer))]
pub fn last_imported_anchor_info_at_ct(
    tables: &[u8],
    t: AnchorsCacheTransaction,
    ct: ChainTime,
) -> Result<Option<Authored<AnchorInfo>>, Refusal>
    ensures { info_answer_of result ≡ info_at_ct_call ct.0 tables.now t }
{
    questions::check_seen(tables, t)?;
    let c = t.cache;
    let history = History::of(tables, c.history_first, c.history_len);
    Ok(history.shown(history.kept_len(ct)))
}

pub fn get_last_imported_anchor_id_and_ct(
    tables: &[u8],
    t: AnchorsCacheTransaction,
) -> Result<Option<(u32, ChainTime)>, Refusal>
    ensures { id_answer_of result ≡ last_id_call tables.now t }
{
    let last = last_imported_anchor_info(tables, t)?;
    Ok(last.map(|e| (e.value.id, e.value.ct)))
}

// The cached anchor at an index, the front at 0.
#[tactic(auto, using(crate::proofs::Refused::refused), unfolding(crate::specs::Calls::get_call, crate::specs::Calls::get_answer))]
pub fn get(
    tables: &[u8],
    t: AnchorsCacheTransaction,
    index: usize,
) -> Result<Option<Authored<CachedAnchor>>, Refusal>
    ensures { anchor_answer_of result ≡ get_call index tables.now t }
{
    questions::check_seen(tables, t)?;
    let c = t.cache;
    Ok(Anchors::of(tables, c.first, c.len).shown(c.base, index))
}

#[tactic(auto, using(crate::proofs::Refused::refused), unfolding(crate::specs::Calls::pending_call, crate::specs::Calls::flag_answer))]
pub fn has_pending_externals(tables: &[u8], t: AnchorsCacheTransaction) -> Result<bool, Refusal>
    ensures { flag_answer_of result ≡ pending_call tables.now t }
{
    questions::check_seen(tables, t)?;
    Ok(t.cache.pending)
}

// Some anchor up to the key has messages of ours. Ids rise and each cached anchor has some, so the front decides.
#[tactic(auto, using(crate::proofs::Refused::refused), unfolding(crate::specs::Calls::pending_in_range_call, crate::specs::Calls::flag_answer))]
pub fn check_has_pending_externals_in_range(
    tables: &[u8],
    t: AnchorsCacheTransaction,
    up_to: ExternalKey,
) -> Result<bool, Refusal>
    ensures { flag_answer_of result ≡ pending_in_range_call up_to tables.now t }
{
    questions::check_seen(tables, t)?;
    let c = t.cache;
    if c.len == 0 {
        return Ok(false);
    }
    let front = tables::anchor_at(tables, c.first, 0);
    Ok(front.id <= up_to.anchor_id)
}
