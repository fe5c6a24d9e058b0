// A fixed list of 1,200 steps on the anchors cache. Its lines are those of the Rust original (README.md).
#![tactic(auto)]

mod digest;
mod draw;

use anchors_cache::{After, AnchorsCacheTransaction, Authored, MempoolAnchor, TABLES_BYTES};
use arrayvec::ArrayVec;
use cache_rules::AREA_BYTES;
use draw::{Draw, Kind, Step};
use ext_types::ChainTime;
use refusals::Refusal;
use rows::MESSAGE_LEN;
use std::io::{self, Write};

// What goes from step to step. None of the totals comes near 2^64.
#[derive(Drop)]
struct Run {
    draw: Draw,
    tables: [u8; TABLES_BYTES],
    area: [u8; AREA_BYTES],
    t: AnchorsCacheTransaction,
    adds: u64,
    refused: u64,
    pops: u64,
}

impl Run {
    fn new() -> Self {
        Run {
            draw: Draw::new(),
            tables: [0; TABLES_BYTES],
            area: [0; AREA_BYTES],
            t: anchors_cache::new(),
            adds: 0,
            refused: 0,
            pops: 0,
        }
    }

    fn add(&mut self, out: &mut impl Write, kind: Kind) -> io::Result<()> {
        let drawn = self.draw.anchor(kind);
        let anchor = MempoolAnchor {
            id: drawn.id,
            chain_time: ChainTime(drawn.ct),
            author: draw::author(drawn.id),
        };
        let messages = draw::messages(drawn.id);
        let n = messages.len().min(MESSAGE_LEN * drawn.count as usize);
        let left = anchors_cache::add(
            &mut self.tables,
            &mut self.area,
            self.t,
            anchor,
            drawn.ours,
            &messages[..n],
        );
        match left {
            Ok(t) => {
                self.t = t;
                self.adds = self.adds.wrapping_add(1);
            }
            Err(_) => self.refused = self.refused.wrapping_add(1),
        }
        writeln!(out, "add {}", refusals::number(left))
    }

    fn pop(&mut self, out: &mut impl Write) -> io::Result<()> {
        let After { answer, state } = match anchors_cache::pop_front(
            &self.tables,
            &self.area,
            self.t,
        ) {
            Ok(popped) => popped,
            Err(refusal) => return writeln!(out, "pop {} none", u8::from(refusal)),
        };
        self.t = state;
        let Some(Authored { value: front, .. }) = answer else {
            return writeln!(out, "pop 0 none");
        };
        self.pops = self.pops.wrapping_add(1);
        writeln!(
            out,
            "pop 0 {} {} {}",
            front.id, front.chain_time.0, front.count
        )
    }

    // By so much before the last imported chain time.
    fn trim(&mut self, out: &mut impl Write, back: u64) -> io::Result<()> {
        let ct = match anchors_cache::get_last_imported_anchor_id_and_ct(&self.tables, self.t) {
            Ok(Some((_, ct))) => ct.0.saturating_sub(back),
            _ => 0,
        };
        let After { answer, state } = match anchors_cache::remove_last_imported_above(
            &self.tables,
            &self.area,
            self.t,
            ChainTime(ct),
        ) {
            Ok(trimmed) => trimmed,
            Err(refusal) => return writeln!(out, "trim {} none", u8::from(refusal)),
        };
        self.t = state;
        match answer {
            Some(Authored { value: last, .. }) => {
                let (all, ours) = (last.all_exts_count, last.our_exts_count);
                writeln!(out, "trim 0 {} {} {all} {ours}", last.id, last.ct.0)
            }
            None => writeln!(out, "trim 0 none"),
        }
    }

    // A call that changes the transaction alone. A refused one leaves it as it was.
    fn change<F>(&mut self, out: &mut impl Write, name: &str, call: F) -> io::Result<()>
    where
        F: FnOnce(
            &[u8],
            &[u8],
            AnchorsCacheTransaction,
        ) -> Result<AnchorsCacheTransaction, Refusal>,
        requires { F.IsAlwaysCallable call }
    {
        let left = call(&self.tables, &self.area, self.t);
        self.t = left.unwrap_or(self.t);
        writeln!(out, "{name} {}", refusals::number(left))
    }

    fn step(&mut self, out: &mut impl Write, kind: Kind) -> io::Result<()> {
        match self.draw.step() {
            Step::Add => {
                for _ in 0..self.draw.adds(kind, self.t.active) {
                    self.add(out, kind)?;
                }
                Ok(())
            }
            Step::Pop => {
                for _ in 0..self.draw.pops() {
                    self.pop(out)?;
                }
                Ok(())
            }
            Step::Trim => {
                let back = self.draw.back();
                self.trim(out, back)
            }
            Step::Open => self.change(out, "open", anchors_cache::open),
            Step::Commit => self.change(out, "commit", anchors_cache::commit),
            Step::Rollback => self.change(out, "rollback", anchors_cache::rollback),
            Step::Close => self.change(out, "close", anchors_cache::close),
        }
    }

    // The line after each step.
    fn put_cache(&self, out: &mut impl Write) -> io::Result<()> {
        let cache = self.t.cache;
        let pending = u8::from(cache.pending);
        let digest = digest::of_cache(&self.tables, &self.area, self.t);
        writeln!(
            out,
            "cached {} history {} pending {pending} digest {digest}",
            cache.len, cache.history_len
        )
    }
}

// The text goes out where one more step might not fit. The longest has 40 lines of `add` and its last line.
const FULL: usize = 61_440;

// Gathered here and not in a `BufWriter`, which ends where a write would have to wait; `write_all` makes it again.
type Text = ArrayVec<u8, 65_536>;

fn put_steps(out: &mut impl Write) -> io::Result<()> {
    let mut text = Text::new();
    let mut run = Run::new();
    for _ in 0..10 {
        for kind in [Kind::Small, Kind::Large, Kind::NoneOurs] {
            for _ in 0..40 {
                run.step(&mut text, kind)?;
                run.put_cache(&mut text)?;
                if FULL <= text.len() {
                    streams::write_all(out, &text)?;
                    text.clear();
                }
            }
        }
    }
    writeln!(text, "end {} {} {}", run.adds, run.refused, run.pops)?;
    streams::write_all(out, &text)
}

// Where a write fails the list ends, in silence.
fn main(rt: HostRuntime) {
    let _ = put_steps(&mut rt.stdout());
}
