// Runs the session on standard input and prints its lines (document 01, "Session program"). The input may be of any
// length; it is read, and the text is written, in large pieces.
#![tactic(auto)]

ghost use Rattle.std.specs.Prelude.{◌+◌, ◌≤◌};

use anchors_cache::TABLES_BYTES;
use cache_rules::{AREA_BYTES, MAX_MESSAGES};
use range_rules::ENTRY_LEN;
use reader_rules::ExternalsReader;
use records::{HEAD_BYTES, LENGTH_BYTES, Next};
use router::{MAX_ROUTES, ROUTE_LEN};
use session_rules::Session;

const ROUTES_BYTES: usize = MAX_ROUTES * ROUTE_LEN;

// No read puts more messages than a cache has.
const OUTPUT_BYTES: usize = MAX_MESSAGES * ENTRY_LEN;

const TEXT_BYTES: usize = 131_072;

// No record's text is longer than 113,761 bytes; with more text than this there might be no room for one more.
const MOST: usize = 16_384;

const INPUT_BYTES: usize = 65_536;

// A session on its way, with all that it is lent, and the input at hand: the window's bytes from `from` to `end`.
// No plainer as a struct of its own: only a `Run` holds the window, and each place would be named through one field more.
#[derive(Drop)]
struct Run {
    session: Session,
    reader: ExternalsReader,
    tables: [u8; TABLES_BYTES],
    area: [u8; AREA_BYTES],
    routes: [u8; ROUTES_BYTES],
    entries: [u8; OUTPUT_BYTES],
    text: [u8; TEXT_BYTES],
    window: [u8; INPUT_BYTES],
    from: usize,
    end: usize,
}

impl Run {
    fn new() -> Self {
        Run {
            session: session_state::new(),
            reader: session::no_reader(),
            tables: [0; TABLES_BYTES],
            area: [0; AREA_BYTES],
            routes: [0; ROUTES_BYTES],
            entries: [0; OUTPUT_BYTES],
            text: [0; TEXT_BYTES],
            window: [0; INPUT_BYTES],
            from: 0,
            end: 0,
        }
    }

    // The text is written where it is longer than `most`. Where it can't be, the session has stopped.
    fn flush(&mut self, rt: &HostRuntime, most: usize) {
        if most < self.session.at {
            let written = streams::write_front(&mut rt.stdout(), &self.text, self.session.at);
            self.session.stopped = self.session.stopped || written.is_err();
            self.session.at = 0;
        }
    }

    // The input has ended; `cut`: inside a record, or because it can't be read.
    fn end_input(&mut self, cut: bool) {
        self.session = session_state::end(&mut self.text, self.session, cut);
    }

    // What is at hand goes down to the front, and more input behind it. It is less than a record, so there is room.
    fn refill(&mut self, rt: &HostRuntime) {
        let have = self.end.saturating_sub(self.from);
        if self.window.len() <= have {
            return self.end_input(true);
        }
        rows::move_down(&mut self.window, self.from, 0, have);
        match streams::read(&mut rt.stdin(), &mut self.window[have..]) {
            Ok(Some(n)) => {
                self.from = 0;
                self.end = have + n;
            }
            Ok(None) => self.end_input(0 < have),
            Err(_) => self.end_input(true),
        }
    }

    // The record between two places of the window.
    fn step(&mut self, rt: &HostRuntime, start: usize, end: usize) {
        if let Some(record) = self.window.get(start..end) {
            let stepped = session::step(
                &mut self.tables,
                &mut self.area,
                &mut self.routes,
                &mut self.entries,
                &mut self.text,
                self.session,
                self.reader,
                record,
            );
            self.session = stepped.session;
            self.reader = stepped.reader;
        }
        self.from = end;
        self.flush(rt, MOST);
    }

    // A record of n bytes that is too long, by its head; one that the input ends in is malformed.
    fn long(&mut self, rt: &HostRuntime, n: usize)
        requires { self.old.from + 56 ≤ self.old.end }
    {
        let start = self.from + LENGTH_BYTES;
        let behind = n.saturating_sub(self.end - start);
        match self.window.get(start..start + HEAD_BYTES) {
            Some(head) if has_more(rt, behind) => {
                self.session = session_state::long_record(
                    &self.tables,
                    &self.area,
                    &mut self.text,
                    self.session,
                    head,
                    n,
                );
            }
            _ => self.end_input(true),
        }
    }

    #[tactic(auto, using(crate::proofs::Laws::whole_ends, crate::proofs::Laws::long_ends))]
    fn turn(&mut self, rt: &HostRuntime) {
        match records::next_record(&self.window, self.from, self.end) {
            Next::Whole(start, n) => self.step(rt, start, start + n),
            Next::Long(n) => self.long(rt, n),
            Next::Part => self.refill(rt),
        }
    }
}

// Whether so many bytes more stand in the input. The program stops behind them, so more may be read.
// A `while`, for it counts bytes that arrive, which no iterator yields.
fn has_more(rt: &HostRuntime, n: usize) -> bool {
    let mut buffer = [0; INPUT_BYTES];
    let mut left = n;
    while 0 < left {
        match streams::read(&mut rt.stdin(), &mut buffer) {
            Ok(Some(got)) => left = left.saturating_sub(got),
            _ => return false,
        }
    }
    true
}

fn main(rt: HostRuntime) {
    let mut run = Run::new();
    // turns are counted, for a proved loop has to end
    for _ in 0..u64::MAX {
        run.turn(&rt);
        if run.session.stopped {
            run.flush(&rt, 0);
            return;
        }
    }
}
