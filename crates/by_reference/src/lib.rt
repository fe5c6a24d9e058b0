// Calls that take a struct by reference, and a search in a slice of structs: thin functions over calls that go by
// value.
#![tactic(auto)]

ghost use Rattle.std.specs.Prelude.{◌≡◌, length};
ghost use Rattle.anchors_cache.specs.Calls.{pop_call, trim_call, open_call, commit_call, rollback_call, close_call};
ghost use Rattle.refusals.specs.Refusals.{number};
ghost use Rattle.anchors_cache.specs.Answers.{anchor_answer_of, info_answer_of};
ghost use Rattle.by_reference.specs.Answers.{pop_answer_of, trim_answer_of, told, in_turn};
ghost use Rattle.by_reference.specs.Search.{same_route, takes_one, records_number, get_partition_in, nothing_walked, walked_over, walk_answer};
ghost use Rattle.router.specs.Router.{answer_of};

use anchors_cache::{AnchorInfo, AnchorsCacheTransaction, Authored, CachedAnchor};
use ext_types::ChainTime;
use refusals::Refusal;
use router::{MAX_PARTITION, MAX_ROUTES};

// Each of the six takes the transaction by reference and changes it: what the core leaves is stored behind `t`, the
// rest is the answer. A refused call leaves the transaction as it was.
// The two clauses stand in each: no plainer by one name, which would still take the call, the number and `t.new`. Each
// is written out (no plainer as one function): what they share is the line that stores.
pub fn open(t: &mut AnchorsCacheTransaction, tables: &[u8], area: &[u8]) -> Result<(), Refusal>
    ensures { (number result ≡ (open_call (length area.now) tables.now t.old).number)
        × (t.new ≡ (open_call (length area.now) tables.now t.old).state) }
{
    *t = anchors_cache::open(tables, area, *t)?;
    Ok(())
}

pub fn pop_front(
    t: &mut AnchorsCacheTransaction,
    tables: &[u8],
    area: &[u8],
) -> Result<Option<Authored<CachedAnchor>>, Refusal>
    ensures { (anchor_answer_of result ≡ pop_answer_of (pop_call (length area.now) tables.now t.old))
        × (t.new ≡ (pop_call (length area.now) tables.now t.old).state) }
{
    let popped = anchors_cache::pop_front(tables, area, *t)?;
    *t = popped.state;
    Ok(popped.answer)
}

pub fn remove_last_imported_above(
    t: &mut AnchorsCacheTransaction,
    tables: &[u8],
    area: &[u8],
    ct: ChainTime,
) -> Result<Option<Authored<AnchorInfo>>, Refusal>
    ensures { (info_answer_of result ≡ trim_answer_of (trim_call (length area.now) ct.0 tables.now t.old))
        × (t.new ≡ (trim_call (length area.now) ct.0 tables.now t.old).state) }
{
    let trimmed = anchors_cache::remove_last_imported_above(tables, area, *t, ct)?;
    *t = trimmed.state;
    Ok(trimmed.answer)
}

pub fn commit(t: &mut AnchorsCacheTransaction, tables: &[u8], area: &[u8]) -> Result<(), Refusal>
    ensures { (number result ≡ (commit_call (length area.now) tables.now t.old).number)
        × (t.new ≡ (commit_call (length area.now) tables.now t.old).state) }
{
    *t = anchors_cache::commit(tables, area, *t)?;
    Ok(())
}

pub fn rollback(t: &mut AnchorsCacheTransaction, tables: &[u8], area: &[u8]) -> Result<(), Refusal>
    ensures { (number result ≡ (rollback_call (length area.now) tables.now t.old).number)
        × (t.new ≡ (rollback_call (length area.now) tables.now t.old).state) }
{
    *t = anchors_cache::rollback(tables, area, *t)?;
    Ok(())
}

pub fn close(t: &mut AnchorsCacheTransaction, tables: &[u8], area: &[u8]) -> Result<(), Refusal>
    ensures { (number result ≡ (close_call (length area.now) tables.now t.old).number)
        × (t.new ≡ (close_call (length area.now) tables.now t.old).state) }
{
    *t = anchors_cache::close(tables, area, *t)?;
    Ok(())
}

// The six answers, in the order of the calls, and the transaction that they leave.
#[derive(Clone, Copy, Debug, PartialEq, Eq)]
pub struct InTurn {
    pub opened: Result<(), Refusal>,
    pub popped: Result<Option<Authored<CachedAnchor>>, Refusal>,
    pub committed: Result<(), Refusal>,
    pub rolled_back: Result<(), Refusal>,
    pub trimmed: Result<Option<Authored<AnchorInfo>>, Refusal>,
    pub closed: Result<(), Refusal>,
    pub state: AnchorsCacheTransaction,
}

// Lends its own transaction to each call in turn, for whoever has it by value.
pub fn in_turn(t: AnchorsCacheTransaction, tables: &[u8], area: &[u8], ct: ChainTime) -> InTurn
    ensures { told result ≡ in_turn (length area.now) ct.0 tables.now t }
{
    let mut u = t;
    let opened = open(&mut u, tables, area);
    let popped = pop_front(&mut u, tables, area);
    let committed = commit(&mut u, tables, area);
    let rolled_back = rollback(&mut u, tables, area);
    let trimmed = remove_last_imported_above(&mut u, tables, area, ct);
    let closed = close(&mut u, tables, area);
    InTurn {
        opened,
        popped,
        committed,
        rolled_back,
        trimmed,
        closed,
        state: u,
    }
}

#[derive(Clone, Copy, Debug, PartialEq, Eq)]
pub struct Route {
    pub workchain: i8,
    pub account: [u8; 32],
    pub partition: u8,
}

#[tactic(auto, using(crate::proofs::Routes::this_route))]
fn same_route(r: &Route, workchain: i8, account: &[u8; 32]) -> bool
    ensures { result ≡ same_route r.now workchain account.now }
{
    r.workchain == workchain && r.account == *account
}

// Whether question 3 takes a record behind those before it.
#[tactic(auto, using(std::proofs::lemmas::Bool::Decides::nat_tests), unfolding(crate::specs::Search::takes_one))]
fn takes_one(before: &[Route], r: &Route) -> bool
    ensures { result ≡ takes_one before.now r.now }
{
    before.len() < MAX_ROUTES
        && r.partition <= MAX_PARTITION
        && !before
            .iter()
            .any(|q| same_route(q, r.workchain, &r.account))
}

// Question 3 of route records.
#[tactic(auto, using(crate::proofs::Routes::question_3))]
fn check_routes(routes: &[Route]) -> Result<(), Refusal>
    ensures { number result ≡ records_number routes.now }
{
    for (i, r) in routes.iter().enumerate() {
        if !takes_one(&routes[..i], r) {
            return Err(Refusal::RoutesUnsound);
        }
    }
    Ok(())
}

// The partition of the first record for the workchain and the account, else 0; question 3 refuses the records. The
// second clause says the same of one walk over them: two ways to write the rule down, and the code answers as both.
pub fn get_partition(routes: &[Route], workchain: i8, account: [u8; 32]) -> Result<u8, Refusal>
    ensures rule { answer_of result ≡ get_partition_in routes.now workchain account }
    ensures walked { answer_of result ≡ walk_answer (walked_over workchain account nothing_walked routes.now) }
{
    check_routes(routes)?;
    let first = routes.iter().find(|r| same_route(r, workchain, &account));
    Ok(first.map_or(0, |r| r.partition))
}

// Lends its own routes, for whoever has them by value. Four, as its one caller has: a const parameter is no plainer,
// for `get_partition` takes any number.
pub fn partition_of4(routes: [Route; 4], workchain: i8, account: [u8; 32]) -> Result<u8, Refusal>
    ensures rule { answer_of result ≡ get_partition_in routes workchain account }
    ensures walked { answer_of result ≡ walk_answer (walked_over workchain account nothing_walked routes) }
{
    get_partition(&routes, workchain, account)
}
