// A session's step (document 01, "Session program"): one record, the text that it gives, and the state that it leaves.
// The tables, the message area, the routes, the output entries and the text are lent; session and reader go by value.
// The lent bytes stand side by side in `step` and `taken`: tried as one struct of &mut: no plainer, a contract names
// them by place, as `lent.exit.1.1.0`. `called`, which changes no table, has them as one.
#![tactic(auto)]

ghost use Rattle.std.specs.Prelude.{◌≡◌, [], ◌∷◌};
ghost use Rattle.records.specs.Records.{kind_number};
ghost use Rattle.session_rules.specs.Steps.{no_reader, whole, whole_after, taken_whole};
ghost use Rattle.session_state.specs.Dos.{do_byte};

use range_reader::Lent;
use reader_rules::ExternalsReader;
use records::{KIND_BYTES, Kind};
use session_rules::Session;
use session_state::Do;

mod reading;

#[derive(Clone, Copy)]
pub struct Stepped {
    pub session: Session,
    pub reader: ExternalsReader,
}

// Before the first record: no shard, no settings, no ranges.
pub fn no_reader() -> ExternalsReader
    ensures { result ≡ no_reader }
{
    reading::no_reader()
}

// One record, its kind and its payload. A session that has stopped takes none.
// The lent bytes stand side by side: see the file's head.
pub fn step(
    tables: &mut [u8],
    area: &mut [u8],
    routes: &mut [u8],
    entries: &mut [u8],
    text: &mut [u8],
    session: Session,
    reader: ExternalsReader,
    bytes: &[u8],
) -> Stepped
    ensures { whole result.session result.reader tables.new area.new routes.new entries.new text.new
        ≡ whole_after bytes.now (whole session reader tables.old area.old routes.old entries.old text.old) }
{
    let Some(kind) = session_state::taken_kind(session, bytes) else {
        return Stepped {
            session: session_state::malformed(text, session),
            reader,
        };
    };
    let next = session_state::record_counted(session);
    let p = &bytes[KIND_BYTES..];
    taken(tables, area, routes, entries, text, next, reader, kind, p)
}

// A record that is taken; the lent bytes as in `step`.
fn taken(
    tables: &mut [u8],
    area: &mut [u8],
    routes: &mut [u8],
    entries: &mut [u8],
    text: &mut [u8],
    session: Session,
    reader: ExternalsReader,
    kind: Kind,
    p: &[u8],
) -> Stepped
    ensures { whole result.session result.reader tables.new area.new routes.new entries.new text.new
        ≡ taken_whole (kind_number kind) p.now (whole session reader tables.old area.old routes.old entries.old text.old) }
{
    match kind {
        Kind::Shard => {
            let done = reading::with_shard(reader, p);
            reading::put_in(text, session, reader, done)
        }
        Kind::Settings => {
            let done = reading::with_settings(reader, p);
            reading::put_in(text, session, reader, done)
        }
        Kind::Route => Stepped {
            session: session_state::route(routes, text, session, p),
            reader,
        },
        Kind::Anchor => Stepped {
            session: session_state::anchor(tables, area, text, session, p),
            reader,
        },
        Kind::Do => {
            let call = Do::from(rows::byte_at(p, 0));
            let lent = Lent {
                tables,
                area,
                routes,
            };
            called(lent, entries, text, session, reader, call)
        }
    }
}

// A call of the cache, or the read.
fn called(
    lent: Lent<'_>,
    entries: &mut [u8],
    text: &mut [u8],
    session: Session,
    reader: ExternalsReader,
    call: Do,
) -> Stepped
    ensures { whole result.session result.reader lent.entry.tables.now lent.entry.area.now lent.entry.routes.now entries.new text.new
        ≡ taken_whole 5 (do_byte call ∷ []) (whole session reader lent.entry.tables.now lent.entry.area.now lent.entry.routes.now entries.old text.old) }
{
    match call {
        Do::Read(mode) => reading::read_listed(lent, entries, text, session, reader, mode),
        _ => Stepped {
            session: session_state::cache_call(lent.tables, lent.area, text, session, call),
            reader,
        },
    }
}
