// The questions of document 01 that the cache's calls ask: 1 and 5 to 9. A `Refusal` names the first that is
// answered no.
ghost use Rattle.std.specs.Prelude.{◌≡◌, ◌+◌, ◌*◌, ◌/◌, ◌<◌, ◌≤◌, ◌&&◌, leb, length};
ghost use Rattle.cache_rules.specs.Rules.{max_anchors, max_history, right_size, room};
ghost use Rattle.refusals.specs.Refusals.{number};
ghost use Rattle.anchors_cache.specs.Tables.{tables_bytes};
ghost use Rattle.anchors_cache.specs.Calls.{valid_cache, valid, refusal, refusal_at, refusal_seen, add_number, add_info_number};

use crate::anchors::Anchors;
use crate::{AnchorsCache, AnchorsCacheTransaction};
use cache_rules::{AREA_BYTES, MAX_ANCHOR_MESSAGES, MAX_ANCHORS, MAX_HISTORY, MAX_MESSAGES};
use refusals::Refusal;
use rows::MESSAGE_LEN;

// As many messages as any area can hold: what a call asks that is lent none.
const ANY_PLACES: usize = usize::MAX / MESSAGE_LEN;

// The lent tables are whole, and both windows lie in them.
fn lies_within(tables: &[u8], c: AnchorsCache) -> bool
    ensures { result
        ≡ (leb tables_bytes (length tables.now)
        && (leb (c.first + c.len) max_anchors && leb (c.history_first + c.history_len) max_history)) }
{
    crate::TABLES_BYTES <= tables.len()
        && rows::sum_within(c.first, c.len, MAX_ANCHORS)
        && rows::sum_within(c.history_first, c.history_len, MAX_HISTORY)
}

// Question 5 of a window, over an area of so many places.
fn valid_cache(tables: &[u8], places: usize, c: AnchorsCache) -> bool
    ensures { result ≡ valid_cache places tables.now c }
{
    if !lies_within(tables, c) {
        return false;
    }
    let Some(sum) = Anchors::of(tables, c.first, c.len).sound_count() else {
        return false;
    };
    sum <= MAX_MESSAGES && rows::sum_within(c.base, sum, places) && c.pending == (0 < c.len)
}

// Also of what an open transaction's rollback restores, unless that is the cache as it is.
#[tactic(auto, using(std::proofs::lemmas::Bool::Decides::nat_tests), unfolding(crate::specs::Calls::valid))]
fn valid_state(tables: &[u8], places: usize, t: AnchorsCacheTransaction) -> bool
    ensures { result ≡ valid places tables.now t }
{
    valid_cache(tables, places, t.cache)
        && (!t.active || t.cache == t.undo || valid_cache(tables, places, t.undo))
}

// Questions 1 and 5.
#[tactic(auto, using(std::proofs::lemmas::Bool::Decides::nat_tests), unfolding(crate::specs::Calls::refusal))]
pub(crate) fn check(tables: &[u8], n: usize, t: AnchorsCacheTransaction) -> Result<(), Refusal>
    ensures { number result ≡ refusal n tables.now t }
{
    if n < AREA_BYTES {
        return Err(Refusal::AreaTooShort);
    }
    if !valid_state(tables, n / MESSAGE_LEN, t) {
        return Err(Refusal::StateUnsound);
    }
    Ok(())
}

// Questions 1, 5 and 9: a transaction must be open, or none.
#[tactic(auto, using(crate::proofs::Refused::asked_at), unfolding(crate::specs::Calls::refusal, crate::specs::Calls::refusal_at))]
pub(crate) fn check_at(
    tables: &[u8],
    n: usize,
    t: AnchorsCacheTransaction,
    must: bool,
) -> Result<(), Refusal>
    ensures { number result ≡ refusal_at must n tables.now t }
{
    check(tables, n, t)?;
    if must != t.active {
        return Err(Refusal::TransactionOpenOrNone);
    }
    Ok(())
}

// Question 5 where no area is lent.
#[tactic(auto, using(std::proofs::lemmas::Bool::Decides::nat_tests), unfolding(crate::specs::Calls::refusal_seen))]
pub(crate) fn check_seen(tables: &[u8], t: AnchorsCacheTransaction) -> Result<(), Refusal>
    ensures { number result ≡ refusal_seen tables.now t }
{
    if !valid_state(tables, ANY_PLACES, t) {
        return Err(Refusal::StateUnsound);
    }
    Ok(())
}

// Question 6, of k bytes of messages.
#[tactic(auto, using(std::proofs::lemmas::Bool::Decides::nat_tests), unfolding(cache_rules::specs::Rules::right_size))]
fn right_size(ours: u32, k: usize) -> bool
    ensures { result ≡ right_size ours k }
{
    k <= MESSAGE_LEN * MAX_ANCHOR_MESSAGES
        && k % MESSAGE_LEN == 0
        && ours as usize <= k / MESSAGE_LEN
}

// Question 8: the caps, with one anchor more.
#[tactic(auto, using(std::proofs::lemmas::Bool::Decides::nat_tests), unfolding(cache_rules::specs::Rules::room))]
fn has_room(anchors: usize, messages: usize, history: usize, ours: u32, count: usize) -> bool
    ensures { result ≡ room anchors messages history ours count }
{
    history < MAX_HISTORY
        && (ours == 0 || (anchors < MAX_ANCHORS && rows::sum_within(messages, count, MAX_MESSAGES)))
}

// Questions 1 and 5 to 9, of an anchor with k bytes of messages.
#[tactic(auto, using(crate::proofs::Asked::add_six, crate::proofs::Asked::add_seven, crate::proofs::Asked::add_eight, crate::proofs::Asked::add_nine, crate::proofs::Asked::add_zero))]
pub(crate) fn check_add(
    tables: &[u8],
    n: usize,
    t: AnchorsCacheTransaction,
    id: u32,
    ours: u32,
    k: usize,
) -> Result<(), Refusal>
    ensures { number result ≡ add_number n tables.now t id ours k }
{
    check(tables, n, t)?;
    if !right_size(ours, k) {
        return Err(Refusal::MessagesUnsound);
    }
    let c = t.cache;
    let anchors = Anchors::of(tables, c.first, c.len);
    if !anchors.is_below(id) {
        return Err(Refusal::IdNotAbove);
    }
    if !has_room(c.len, anchors.count(), c.history_len, ours, k / MESSAGE_LEN) {
        return Err(Refusal::CacheFull);
    }
    if t.active {
        return Err(Refusal::TransactionOpenOrNone);
    }
    Ok(())
}

// Questions 1, 5, 8 of the history, and 9.
pub(crate) fn check_add_info(
    tables: &[u8],
    n: usize,
    t: AnchorsCacheTransaction,
) -> Result<(), Refusal>
    ensures { number result ≡ add_info_number n tables.now t }
{
    check(tables, n, t)?;
    if MAX_HISTORY <= t.cache.history_len {
        return Err(Refusal::CacheFull);
    }
    if t.active {
        return Err(Refusal::TransactionOpenOrNone);
    }
    Ok(())
}
