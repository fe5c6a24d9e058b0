// Runs the calls of `by_reference` on a small cache and on four routes (README.md).
#![tactic(auto)]

ghost use Rattle.cache_rules.specs.Rules.{area_bytes};
ghost use Rattle.std.specs.Prelude.{◌≤◌};

use anchors_cache::{AnchorsCacheTransaction, Authored, MempoolAnchor, TABLES_BYTES};
use by_reference::Route;
use cache_rules::{AREA_BYTES, AUTHOR_BYTES};
use ext_types::ChainTime;
use refusals::Refusal;
use rows::MESSAGE_LEN;
use std::io;

fn print_number(rt: &impl Print, name: &str, number: u8) -> io::Result<()> {
    println!(rt; "{name} {number}")
}

fn print_done<T: Drop>(rt: &impl Print, name: &str, done: Result<T, Refusal>) -> io::Result<()> {
    print_number(rt, name, refusals::number(done))
}

// The number, and the id or `none`.
fn print_id<T: Copy, F: FnOnce(T) -> u32>(
    rt: &impl Print,
    name: &str,
    answer: Result<Option<Authored<T>>, Refusal>,
    id_of: F,
) -> io::Result<()>
    requires { F.IsAlwaysCallable id_of }
{
    match answer {
        Ok(Some(found)) => println!(rt; "{name} 0 {}", id_of(found.value)),
        Ok(None) => println!(rt; "{name} 0 none"),
        Err(refusal) => println!(rt; "{name} {} none", u8::from(refusal)),
    }
}

// The cache that the calls run on.
#[derive(Drop)]
struct Run {
    tables: [u8; TABLES_BYTES],
    area: [u8; AREA_BYTES],
    t: AnchorsCacheTransaction,
}

impl Run {
    fn new() -> Self {
        Run {
            tables: [0; TABLES_BYTES],
            area: [0; AREA_BYTES],
            t: anchors_cache::new(),
        }
    }

    fn print_cache(&self, rt: &impl Print) -> io::Result<()> {
        let cache = self.t.cache;
        let pending = u8::from(cache.pending);
        let active = u8::from(self.t.active);
        println!(rt;
            "cache {} {} {pending} {active}",
            cache.len, cache.history_len
        )
    }

    fn add(&mut self, rt: &impl Print, id: u32, ours: u32, messages: &[u8]) -> io::Result<()> {
        let anchor = MempoolAnchor {
            id,
            chain_time: ChainTime(1000 * u64::from(id)),
            author: [0; AUTHOR_BYTES],
        };
        let (tables, area) = (&mut self.tables, &mut self.area);
        let left = anchors_cache::add(tables, area, self.t, anchor, ours, messages);
        self.t = left.unwrap_or(self.t);
        print_done(rt, "add", left)
    }

    // All six calls on the first bytes of the area, their answers and what they leave.
    fn in_turn(&mut self, rt: &impl Print, bytes: usize, ct: u64) -> io::Result<()>
        requires { bytes ≤ area_bytes }
    {
        let area = &self.area[..bytes];
        let answers = by_reference::in_turn(self.t, &self.tables, area, ChainTime(ct));
        print_done(rt, "open", answers.opened)?;
        print_id(rt, "pop", answers.popped, |front| front.id)?;
        print_done(rt, "commit", answers.committed)?;
        print_done(rt, "rollback", answers.rolled_back)?;
        print_id(rt, "trim", answers.trimmed, |last| last.id)?;
        print_done(rt, "close", answers.closed)?;
        self.t = answers.state;
        self.print_cache(rt)
    }
}

// The third anchor has no message of ours. The second round's area is one byte too short.
fn cached(rt: &impl Print) -> io::Result<()> {
    let mut run = Run::new();
    let message = [0; MESSAGE_LEN];
    run.add(rt, 1, 1, &message)?;
    run.add(rt, 2, 1, &message)?;
    run.add(rt, 3, 0, b"")?;
    run.print_cache(rt)?;
    run.in_turn(rt, AREA_BYTES, 2500)?;
    run.in_turn(rt, AREA_BYTES - 1, 500)?;
    for ct in [1500, 500, 500] {
        run.in_turn(rt, AREA_BYTES, ct)?;
    }
    Ok(())
}

fn route(workchain: i8, byte: u8, partition: u8) -> Route {
    Route {
        workchain,
        account: [byte; 32],
        partition,
    }
}

// The partition, or the number of the question that refuses the routes.
fn print_partition(rt: &impl Print, routes: [Route; 4], workchain: i8, byte: u8) -> io::Result<()> {
    match by_reference::partition_of4(routes, workchain, [byte; 32]) {
        Ok(partition) => print_number(rt, "partition", partition),
        Err(refusal) => print_number(rt, "refused", u8::from(refusal)),
    }
}

fn routed(rt: &impl Print) -> io::Result<()> {
    let mut routes = [
        route(-1, 7, 3),
        route(0, 9, 5),
        route(1, 9, 6),
        route(0, 7, 2),
    ];
    print_partition(rt, routes, -1, 7)?;
    print_partition(rt, routes, 0, 9)?;
    print_partition(rt, routes, 0, 7)?;
    print_partition(rt, routes, -1, 9)?;
    routes[2] = route(1, 9, 8);
    print_partition(rt, routes, 0, 9)?;
    routes[2] = route(0, 9, 6);
    print_partition(rt, routes, -1, 7)
}

fn print_all(rt: &impl Print) -> io::Result<()> {
    cached(rt)?;
    routed(rt)
}

// Where a write fails the lines end, in silence.
fn main(rt: HostRuntime) {
    let _ = print_all(&rt);
}
