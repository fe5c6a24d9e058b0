// Runs sessions of the cache's and the reader's calls, and prints what the Rust original prints for them (README.md).
#![tactic(auto)]

mod kinds;
mod run;
mod store;

use run::Run;
use std::env;
use std::io::{self, ErrorKind};
use streams::Cut;

// The most of a session.
const SESSION_BYTES: usize = 131_072;

// A session of a list, and whether it is one of extread's.
#[derive(Clone, Copy, Debug)]
struct Framed<'a> {
    session: &'a [u8],
    plain: bool,
}

// The next session of a list: its length, 4 bytes, then 1 for one of extread's or 0, then so many bytes. None where the
// list is over; an error where it goes on and has no session that can be run.
fn read_session<'a>(rt: &HostRuntime, bytes: &'a mut [u8]) -> io::Result<Option<Framed<'a>>> {
    let mut head = [0; 5];
    match streams::fill(&mut rt.stdin(), &mut head) {
        Ok(5) => {}
        Ok(0) => return Ok(None),
        _ => return Err(ErrorKind::UnexpectedEof.into()),
    }
    let len = rows::num_at::<u32>(&head, 0) as usize;
    let plain = head[4] == 1;
    let Some(session) = bytes.get_mut(..len) else {
        return Err(ErrorKind::InvalidInput.into());
    };
    match streams::fill(&mut rt.stdin(), &mut *session) {
        Ok(n) if n == len => Ok(Some(Framed { session, plain })),
        _ => Err(ErrorKind::UnexpectedEof.into()),
    }
}

// A line on the standard error.
fn complain(rt: &HostRuntime, line: &[u8]) {
    let _ = streams::write_all(&mut rt.stderr(), line);
}

fn print_count(rt: &HostRuntime, name: &[u8], n: u64) -> io::Result<()> {
    let mut line = [0; 64];
    let at = text::put_line(&mut line, 0, name, &[n]);
    streams::write_front(&mut rt.stdout(), &line, at)
}

// Sessions one after the other, each under a line `session` with its number; behind the last one stands their number.
// The input says where they end, so the loop counts as far as a number goes: it has to end (no plainer).
fn replay(rt: &HostRuntime, bytes: &mut [u8; SESSION_BYTES], run: &mut Run) -> io::Result<()> {
    for k in 0..u64::MAX {
        match read_session(rt, bytes) {
            Ok(Some(framed)) => {
                print_count(rt, b"session", k)?;
                run.begin(framed.plain);
                run.records(&mut rt.stdout(), framed.session, false)?;
            }
            Ok(None) => return print_count(rt, b"sessions", k),
            Err(_) => {
                complain(
                    rt,
                    b"extprobe: the list has a session that is cut short or too long\n",
                );
                return Ok(());
            }
        }
    }
    Ok(())
}

// One session on standard input. A longer one than there is room for is not run.
fn single(rt: &HostRuntime, bytes: &mut [u8; SESSION_BYTES], run: &mut Run) -> io::Result<()> {
    let (n, mut cut) = match streams::fill(&mut rt.stdin(), bytes) {
        Ok(n) => (n, false),
        Err(Cut { n, .. }) => (n, true),
    };
    if n == bytes.len() {
        match streams::read(&mut rt.stdin(), &mut [0]) {
            Ok(Some(_)) => {
                complain(rt, b"extprobe: a session has at most 131,072 bytes\n");
                return Ok(());
            }
            Ok(None) => {}
            Err(_) => cut = true,
        }
    }
    let session = bytes.get(..n).unwrap_or_default();
    run.records(&mut rt.stdout(), session, cut)
}

// One session; with an argument, a list of them. Where a write fails it ends in silence.
fn main(rt: HostRuntime) -> io::Result<()> {
    let mut bytes = [0; SESSION_BYTES];
    let mut run = Run::new();
    let _ = if 1 < env::args(&rt)?.count() {
        replay(&rt, &mut bytes, &mut run)
    } else {
        single(&rt, &mut bytes, &mut run)
    };
    Ok(())
}
