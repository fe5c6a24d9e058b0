// A session: its records one after the other, until it ends or one is refused.
// Those of extread go to `session::step`; after each the state follows.
use crate::kinds::Kind;
use crate::store::Store;
use anchors_cache::AnchorsCacheTransaction;
use ext_types::ChainTime;
use probe_reader::read::{Answered, MAX_PLACES};
use probe_reader::{functions, given, read};
use range_rules::ENTRY_LEN;
use reader_rules::{ExternalsReader, GetNextMessageGroupMode};
use refusals::Refusal;
use session_rules::Session;
use session_state::Do;
use std::io::{self, Write};

pub const TEXT_BYTES: usize = 131_072;

// A session on its way, and its text that is not written yet; `plain`: only extread's records, and its lines.
#[derive(Drop)]
pub struct Run {
    text: [u8; TEXT_BYTES],
    store: Store,
    session: Session,
    reader: ExternalsReader,
    plain: bool,
}

// The mode of a read that is taken; none for any other record.
fn read_mode(session: Session, record: &[u8]) -> Option<GetNextMessageGroupMode> {
    let kind = session_state::taken_kind(session, record)?;
    match (kind, Do::from(rows::byte_at(record, 2))) {
        (records::Kind::Do, Do::Read(mode)) => Some(mode),
        _ => None,
    }
}

// The next record, behind its length of 4 bytes, and what follows it; none where the input ends, or ends inside one.
fn split_record(bytes: &[u8]) -> Option<(&[u8], &[u8])> {
    let (length, rest) = bytes.split_first_chunk()?;
    rest.split_at_checked(u32::from_le_bytes(*length) as usize)
}

// What a call leaves to the session.
trait Kept: Copy {
    fn keep(self, run: &mut Run);
}

impl Kept for AnchorsCacheTransaction {
    fn keep(self, run: &mut Run) {
        run.session.transaction = self;
    }
}

impl Kept for ExternalsReader {
    fn keep(self, run: &mut Run) {
        run.reader = self;
    }
}

// What the records do.
impl Run {
    // The record is refused, and the session ends.
    fn bad(&mut self, refusal: Refusal) {
        self.session = session_state::bad(&mut self.text, self.session, refusal.into());
    }

    // After a call that prints nothing.
    fn take<T: Kept>(&mut self, left: Result<T, Refusal>) {
        match left {
            Ok(value) => value.keep(self),
            Err(refusal) => self.bad(refusal),
        }
    }

    // After a call whose number is told, 0 where it is done.
    fn tell<T: Kept>(&mut self, name: &[u8], left: Result<T, Refusal>) {
        let number = match left {
            Ok(value) => {
                value.keep(self);
                0
            }
            Err(refusal) => u8::from(refusal),
        };
        self.session.at = text::put_call(&mut self.text, self.session.at, name, number);
    }

    // The payload is a row of the history.
    fn put_history(&mut self, p: &[u8]) {
        let left = probe_cache::given::append_info(
            &mut self.store.tables,
            self.session.transaction,
            p,
        );
        self.take(left);
    }

    // The payload is a row of the anchors, and its messages.
    fn put_cached(&mut self, p: &[u8]) {
        let left = probe_cache::given::append_anchor(
            &mut self.store.tables,
            &mut self.store.area,
            self.session.transaction,
            p,
        );
        self.take(left);
    }

    // An entry to the history alone, on the part of the area that is lent.
    fn info(&mut self, p: &[u8]) {
        let n = self.store.area_len();
        let left = probe_cache::given::add_info(
            &mut self.store.tables,
            &self.store.area[..n],
            self.session.transaction,
            p,
        );
        self.tell(b"info", left);
    }

    // A trim on the part of the area that is lent.
    fn trim(&mut self, ct: ChainTime) {
        let n = self.store.area_len();
        let trimmed = anchors_cache::remove_last_imported_above(
            &self.store.tables,
            &self.store.area[..n],
            self.session.transaction,
            ct,
        );
        self.tell(b"trim", trimmed.map(|after| after.state));
    }

    fn put_limits(&mut self, p: &[u8]) {
        let limits = records::limits_of(p);
        let left = externals_reader::set_buffer_limits_by_partition(self.reader, limits);
        self.take(left);
    }

    // The host took: seqno 4, partition 1, number 4.
    fn took(&mut self, p: &[u8]) {
        let left = reader_offsets::messages_taken(
            self.reader,
            rows::num_at(p, 0),
            rows::byte_at(p, 4),
            rows::num_at(p, 5),
        );
        self.tell(b"took", left);
    }

    fn function(&mut self, p: &[u8]) {
        let called = functions::function(
            &mut self.text,
            self.session.at,
            &self.store.tables,
            self.session.transaction,
            self.reader,
            p,
        );
        self.session.at = called.at;
        self.reader = called.reader;
    }

    fn put_info_at(&mut self, ct: u64) {
        self.session.at = probe_cache::put_info_at(
            &mut self.text,
            self.session.at,
            &self.store.tables,
            self.session.transaction,
            ct,
        );
    }

    fn put_in_range(&mut self, p: &[u8]) {
        self.session.at = probe_cache::put_in_range(
            &mut self.text,
            self.session.at,
            &self.store.tables,
            self.session.transaction,
            p,
        );
    }

    fn after_read(&mut self, answered: Answered) {
        self.session.at = answered.at;
        self.session.transaction = answered.cache;
        self.reader = answered.reader;
    }

    fn read_one(&mut self, p: &[u8]) {
        let handed = self.store.handed(self.session, self.reader);
        let answered = read::one(&mut self.text, self.session.at, handed, p);
        self.after_read(answered);
    }

    fn read_all(&mut self, mode: GetNextMessageGroupMode) {
        let handed = self.store.handed(self.session, self.reader);
        let number = u8::from(mode == GetNextMessageGroupMode::Refill);
        let answered = read::all(&mut self.text, self.session.at, handed, number);
        self.after_read(answered);
    }
}

// The records one after the other.
impl Run {
    pub fn new() -> Self {
        Run {
            text: [0; TEXT_BYTES],
            store: Store::new(),
            session: session_state::new(),
            reader: session::no_reader(),
            plain: false,
        }
    }

    // Before the first record of one more session; the bytes are as the one before left them.
    pub fn begin(&mut self, plain: bool) {
        self.store.lend_all();
        self.session = session_state::new();
        self.reader = session::no_reader();
        self.plain = plain;
    }

    // A record beyond those of extread.
    fn beyond(&mut self, kind: Kind, p: &[u8]) {
        match kind.check(self.session.records, p) {
            Ok(()) => self.called(kind, p),
            Err(refusal) => self.bad(refusal),
        }
    }

    fn called(&mut self, kind: Kind, p: &[u8]) {
        match kind {
            Kind::Range => self.take(given::put_range(self.reader, p)),
            Kind::Partition => self.reader = given::with_partition(self.reader, p),
            Kind::Marks => self.reader = given::with_marks(self.reader, p),
            Kind::Places => self.store.places = rows::num_at::<u32>(p, 0) as usize,
            Kind::Limits => self.put_limits(p),
            Kind::History => self.put_history(p),
            Kind::Cached => self.put_cached(p),
            Kind::Area => self.store.lent = rows::num_at::<u32>(p, 0) as usize,
            Kind::Trim => self.trim(ChainTime(rows::num_at::<u64>(p, 0))),
            Kind::One => self.read_one(p),
            Kind::Took => self.took(p),
            Kind::Function => self.function(p),
            Kind::InfoAt => self.put_info_at(rows::num_at::<u64>(p, 0)),
            Kind::InRange => self.put_in_range(p),
            Kind::New => self.tell(b"new", externals_reader::renew(self.reader)),
            Kind::Info => self.info(p),
        }
    }

    // A record of extread, on the part of the area that is lent.
    fn step(&mut self, record: &[u8]) {
        let mut entries = [0; ENTRY_LEN * MAX_PLACES];
        let n = self.store.area_len();
        let area = &mut self.store.area[..];
        let stepped = session::step(
            &mut self.store.tables,
            &mut area[..n],
            &mut self.store.routes,
            &mut entries,
            &mut self.text,
            self.session,
            self.reader,
            record,
        );
        self.session = stepped.session;
        self.reader = stepped.reader;
    }

    fn record(&mut self, record: &[u8]) {
        if self.plain {
            return self.step(record);
        }
        if let Some(mode) = read_mode(self.session, record) {
            self.session = session_state::record_counted(self.session);
            return self.read_all(mode);
        }
        match Kind::try_from(rows::num_at::<u16>(record, 0)) {
            Ok(kind) => {
                self.session = session_state::record_counted(self.session);
                self.beyond(kind, record.get(2..).unwrap_or_default());
            }
            Err(_) => self.step(record),
        }
    }

    // The whole state.
    fn put_state(&mut self) {
        let at = probe_reader::shown::put_reader(&mut self.text, 0, self.reader);
        self.session.at = probe_cache::shown::put_cache(
            &mut self.text,
            at,
            &self.store.tables,
            &self.store.area,
            self.session.transaction,
        );
    }

    // The text so far is written, and the next one begins at the front.
    fn flush(&mut self, out: &mut impl Write) -> io::Result<()> {
        streams::write_front(out, &self.text, self.session.at)?;
        self.session.at = 0;
        Ok(())
    }

    // What is printed of the session so far; after each record behind the settings that is not refused the state
    // follows.
    fn show(&mut self, out: &mut impl Write) -> io::Result<()> {
        self.flush(out)?;
        if self.session.stopped || self.plain || self.session.records < 3 {
            return Ok(());
        }
        self.put_state();
        self.flush(out)
    }

    // The session in these bytes; `cut`: what follows them can't be read. Each record takes some of them, so that they
    // end before the turns do. A write that fails ends it, and nothing follows.
    pub fn records(&mut self, out: &mut impl Write, bytes: &[u8], cut: bool) -> io::Result<()> {
        let mut rest = bytes;
        for _ in 0..=bytes.len() {
            match split_record(rest) {
                Some((record, behind)) => {
                    self.record(record);
                    rest = behind;
                }
                None => {
                    let cut = cut || !rest.is_empty();
                    self.session = session_state::end(&mut self.text, self.session, cut);
                }
            }
            self.show(out)?;
            if self.session.stopped {
                return Ok(());
            }
        }
        Ok(())
    }
}
