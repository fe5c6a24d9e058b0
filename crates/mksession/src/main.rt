// Sessions as text, one record a line, turned into the records' bytes (README.md).
#![tactic(auto)]

mod forms;
mod lines;
mod record;
mod refused;
mod values;
mod words;

use arrayvec::ArrayVec;
use record::Record;
use refused::{Reason, Refused};
use std::io;

// What ends the run early: a line was refused, which standard error has been told, or a record can't be written.
#[derive(Clone, Copy, Debug)]
struct Stopped;

impl From<io::Error> for Stopped {
    fn from(_: io::Error) -> Self {
        Stopped
    }
}

fn refuse(rt: &HostRuntime, line: u64, refused: Refused) -> Stopped {
    let _ = refused.tell(&mut rt.stderr(), line);
    Stopped
}

// The most bytes that a line has.
const LINE: usize = 65_536;

// The line being read, with its number, and the record that is made of it.
#[derive(Drop)]
struct Maker {
    number: u64,
    line: ArrayVec<u8, LINE>,
    record: Record,
}

impl Maker {
    fn new() -> Self {
        Maker {
            number: 1,
            line: ArrayVec::new(),
            record: Record::new(),
        }
    }

    // Its record is written at once.
    fn end_line(&mut self, rt: &HostRuntime) -> Result<(), Stopped> {
        lines::make(&self.line, &mut self.record).map_err(|refused| refuse(
            rt,
            self.number,
            refused,
        ))?;
        streams::write_all(&mut rt.stdout(), self.record.bytes())?;
        self.line.clear();
        self.number = self.number.wrapping_add(1);
        Ok(())
    }

    fn lengthen(&mut self, rt: &HostRuntime, part: &[u8]) -> Result<(), Stopped> {
        self.line
            .try_extend_from_slice(part)
            .map_err(|_| refuse(rt, self.number, Reason::LongLine.of(b"")))
    }

    fn take(&mut self, rt: &HostRuntime, text: &[u8]) -> Result<(), Stopped> {
        let mut parts = text.split(|b| *b == b'\n');
        if let Some(part) = parts.next() {
            self.lengthen(rt, part)?;
        }
        for part in parts {
            self.end_line(rt)?;
            self.lengthen(rt, part)?;
        }
        Ok(())
    }
}

// The last line may lack its end; where the text can't be read, there is no last line. The input says when it ends; a
// loop has to end of itself, so it counts as far as a number goes (no plainer).
fn run(rt: &HostRuntime) -> Result<(), Stopped> {
    let mut maker = Maker::new();
    let mut text = [0u8; LINE];
    for _ in 0..u64::MAX {
        match streams::read(&mut rt.stdin(), &mut text) {
            Ok(Some(n)) => maker.take(rt, &text[..n])?,
            Ok(None) => return maker.end_line(rt),
            Err(_) => return Err(refuse(rt, maker.number, Reason::Unread.of(b""))),
        }
    }
    Ok(())
}

// The exit status is 0 also where the run ends early.
fn main(rt: HostRuntime) {
    let _ = run(&rt);
}
