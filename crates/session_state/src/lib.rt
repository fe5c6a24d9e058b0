// A session (document 01, "Session program"): the records that do not reach the reader, a refused one, and the end.
// The tables, the message area, the routes and the text are lent; the session goes by value.
// Tables and area stand side by side, as the cache's own calls take them: no plainer as a struct, see `calls`.
#![tactic(auto)]

ghost use Rattle.std.specs.Prelude.{◌≡◌, length, is_some, IfSome};
ghost use Rattle.rows.specs.Rows.{num_at};
ghost use Rattle.records.specs.Records.{kind_number};
ghost use Rattle.session_rules.specs.Said.{with_at, stop, new_session, record_counted, printed, bad_said, malformed_said, route_said, routes_after, anchor_left, cache_said, is_taken, long_said, end_said};
ghost use Rattle.session_state.specs.Dos.{do_byte};

use records::{KIND_BYTES, Kind};
use refusals::Refusal;
use session_rules::Session;

mod calls;
mod routes;

pub use calls::Do;

// Before the first record.
#[tactic(auto, unfolding(session_rules::specs::Said::new_session))]
pub fn new() -> Session
    ensures { result ≡ new_session }
{
    Session {
        records: 0,
        stopped: false,
        at: 0,
        routes_len: 0,
        transaction: anchors_cache::new(),
    }
}

// One record more; the count stays at the greatest number.
#[tactic(auto, unfolding(session_rules::specs::Said::record_counted))]
pub fn record_counted(session: Session) -> Session
    ensures { result ≡ record_counted session }
{
    Session {
        records: session.records.saturating_add(1),
        ..session
    }
}

// With the place behind its last text; nothing follows it.
fn stopped(session: Session, at: usize) -> Session
    ensures { result ≡ with_at (stop session) at }
{
    Session {
        stopped: true,
        at,
        ..session
    }
}

// A refused record: `bad`, its number, the refusal's number; nothing follows.
// A number, as `lines::put_bad` has it: a `Refusal` would ask more of callers.
#[tactic(auto, using(session_rules::proofs::Printed::printed_text), unfolding(session_rules::specs::Said::bad_said))]
pub fn bad(text: &mut [u8], session: Session, number: u8) -> Session
    ensures { record { session = result; bytes = text.new } ≡ printed (bad_said session number) text.old }
{
    let at = lines::put_bad(text, session.at, session.records, number);
    stopped(session, at)
}

// Refused by 17, unless the session has stopped.
#[tactic(auto, using(text::proofs::Laws::show_nothing), unfolding(session_rules::specs::Said::malformed_said))]
pub fn malformed(text: &mut [u8], session: Session) -> Session
    ensures { record { session = result; bytes = text.new } ≡ printed (malformed_said session) text.old }
{
    if session.stopped {
        return session;
    }
    bad(text, record_counted(session), Refusal::Malformed.into())
}

// A route, behind those that are listed.
// The match as in `anchor`: no plainer as one function, for each arm is one expression.
#[tactic(auto, using(text::proofs::Laws::show_nothing, crate::proofs::Laws::listed_within), unfolding(session_rules::specs::Said::route_said, session_rules::specs::Said::after_or_bad))]
pub fn route(routes: &mut [u8], text: &mut [u8], session: Session, p: &[u8]) -> Session
    ensures { (record { session = result; bytes = text.new } ≡ printed (route_said session routes.old p.now) text.old)
        × (routes.new ≡ routes_after session routes.old p.now) }
{
    match routes::listed(routes, session.routes_len, p) {
        Ok(()) => Session {
            routes_len: session.routes_len + router::ROUTE_LEN,
            ..session
        },
        Err(refusal) => bad(text, session, refusal.into()),
    }
}

// An anchor: `add`.
#[tactic(auto, using(text::proofs::Laws::show_nothing), unfolding(session_rules::specs::Said::anchor_said, session_rules::specs::Said::after_or_bad))]
pub fn anchor(
    tables: &mut [u8],
    area: &mut [u8],
    text: &mut [u8],
    session: Session,
    p: &[u8],
) -> Session
    ensures { record { session = result; tables = tables.new; area = area.new; text = text.new }
        ≡ anchor_left session tables.old area.old text.old p.now }
{
    match calls::add(tables, area, session.transaction, p) {
        Ok(transaction) => Session {
            transaction,
            ..session
        },
        Err(refusal) => bad(text, session, refusal.into()),
    }
}

// A call of the cache, and the transaction that it left: its line.
pub fn cache_call(
    tables: &[u8],
    area: &[u8],
    text: &mut [u8],
    session: Session,
    call: Do,
) -> Session
    ensures { record { session = result; bytes = text.new } ≡ printed (cache_said session (length area.now) tables.now (do_byte call)) text.old }
{
    let left = calls::called(tables, area, session.transaction, call);
    Session {
        at: call.put(text, session.at, refusals::number(left)),
        transaction: left.unwrap_or(session.transaction),
        ..session
    }
}

// The kind of a record that is as stated, of a session that goes on.
#[tactic(auto, using(refusals::proofs::Laws::done_is_0), unfolding(session_rules::specs::Said::is_taken))]
pub fn taken_kind(session: Session, bytes: &[u8]) -> Option<Kind>
    ensures taken { is_some result ≡ is_taken session bytes.now }
    ensures kind { IfSome result (λ kind. kind_number kind ≡ num_at 2 0 bytes.now) }
{
    if session.stopped || bytes.len() < KIND_BYTES {
        return None;
    }
    let number = record_counted(session).records;
    records::check_record(number, rows::num_at(bytes, 0), &bytes[KIND_BYTES..]).ok()
}

// A record of n bytes, more than `records::LONGEST`, by its first `records::HEAD_BYTES`: it is never taken.
#[tactic(auto, using(text::proofs::Laws::show_nothing), unfolding(session_rules::specs::Said::long_said, session_rules::specs::Said::record_counted))]
pub fn long_record(
    tables: &[u8],
    area: &[u8],
    text: &mut [u8],
    session: Session,
    head: &[u8],
    n: usize,
) -> Session
    ensures { record { session = result; bytes = text.new } ≡ printed (long_said (length area.now) tables.now session head.now n) text.old }
{
    if session.stopped {
        return session;
    }
    let next = record_counted(session);
    let refusal = calls::long_refusal(tables, area, next.records, next.transaction, head, n);
    bad(text, next, refusal.into())
}

// The input's end. One inside a record, or before the settings, is one malformed record.
#[tactic(auto, using(text::proofs::Laws::show_nothing, session_rules::proofs::Printed::printed_text), unfolding(session_rules::specs::Said::end_said))]
pub fn end(text: &mut [u8], session: Session, cut: bool) -> Session
    ensures { record { session = result; bytes = text.new } ≡ printed (end_said session cut) text.old }
{
    if cut || session.records < 2 {
        return malformed(text, session);
    }
    if session.stopped {
        return session;
    }
    let at = lines::put_end(text, session.at, session.transaction.cache);
    stopped(session, at)
}
