// Hands every call of the externals reader states that the questions refuse, and some that they must not (README.md).
#![tactic(auto)]

mod calls;
mod lent;
mod state;

use cache_rules::AREA_BYTES;
use lent::{LONG_ROUTES, Line};
use router::ROUTE_LEN;
use state::{Case, sound};
use std::io::{self, Write};

const SHORT_AREA: usize = AREA_BYTES - 1;

const MOST_ROUTES: usize = LONG_ROUTES - ROUTE_LEN;

// The prefix of a half of a workchain.
const HALF: u64 = 1 << 62;

// The line of a case: its name and the numbers of the calls.
fn put_case(out: &mut impl Write, name: &str, case: Case) -> io::Result<()> {
    let mut line = Line::new();
    writeln!(line, "{name} {case}")?;
    streams::write_all(out, &line)
}

fn put_ranges(out: &mut impl Write) -> io::Result<()> {
    put_case(out, "sound", sound())?;
    put_case(out, "ranges_16", sound().with(|c| c.len = 16))?;
    put_case(out, "ranges_17", sound().with(|c| c.len = 17))?;
    put_case(out, "ranges_wrap", sound().with(|c| c.len = usize::MAX))?;
    put_case(out, "equal_seqnos", sound().with(|c| c.second = 1))?;
    put_case(out, "falling_seqnos", sound().with(|c| c.second = 0))?;
    put_case(out, "seqno_largest", sound().with(|c| c.second = u32::MAX))?;
    let free_slot = sound().with(|c| c.free_seqno = 1);
    put_case(out, "free_slot_equal_seqno", free_slot)?;
    let counted = free_slot.with(|c| c.free_count = 1025);
    put_case(out, "free_slot_count_1025", counted)
}

fn put_counts(out: &mut impl Write) -> io::Result<()> {
    put_case(out, "count_1024", sound().with(|c| c.count = 1024))?;
    put_case(out, "count_1025", sound().with(|c| c.count = 1025))?;
    put_case(out, "count_largest", sound().with(|c| c.count = u32::MAX))?;
    let absent = sound().with(|c| c.present = false);
    let largest_absent = absent.with(|c| c.count = u32::MAX);
    put_case(out, "count_largest_absent", largest_absent)?;
    put_case(out, "count_1025_absent", absent.with(|c| c.count = 1025))?;
    put_case(out, "taken_2_of_1", sound().with(|c| c.taken = 2))?;
    put_case(out, "taken_largest", sound().with(|c| c.taken = u32::MAX))?;
    let current_largest = sound().with(|c| c.current = u32::MAX);
    put_case(out, "current_largest", current_largest)
}

fn put_settings(out: &mut impl Write) -> io::Result<()> {
    put_case(out, "limit_1024", sound().with(|c| c.limit = 1024))?;
    put_case(out, "limit_65534", sound().with(|c| c.limit = 65534))?;
    let limit_1025 = sound().with(|c| c.limit = 1025);
    put_case(out, "limit_1025", limit_1025)?;
    let equal_seqnos = limit_1025.with(|c| c.second = 1);
    put_case(out, "limit_1025_equal_seqnos", equal_seqnos)?;
    put_case(out, "open_0", sound().with(|c| c.most = 0))?;
    put_case(out, "open_16", sound().with(|c| c.most = 16))?;
    put_case(out, "open_17", sound().with(|c| c.most = 17))?;
    put_case(out, "open_200", sound().with(|c| c.most = 200))
}

fn put_shards(out: &mut impl Write) -> io::Result<()> {
    put_case(out, "prefix_8", sound().with(|c| c.prefix = 8))?;
    put_case(out, "prefix_4", sound().with(|c| c.prefix = 4))?;
    let prefix_0 = sound().with(|c| c.prefix = 0);
    put_case(out, "prefix_0", prefix_0)?;
    put_case(
        out,
        "prefix_0_limit_1025",
        prefix_0.with(|c| c.limit = 1025),
    )?;
    let twice = prefix_0.with(|c| c.route = 0);
    put_case(out, "prefix_0_routes_twice", twice)?;
    let area_short = twice.with(|c| c.area = SHORT_AREA);
    put_case(out, "area_short_prefix_0_routes_twice", area_short)
}

// The masterchain is one shard; workchain 255 has its byte alone.
fn put_masterchain(out: &mut impl Write) -> io::Result<()> {
    let whole = sound().with(|c| c.workchain = shard_ident::MASTERCHAIN);
    put_case(out, "masterchain_whole", whole)?;
    let half = whole.with(|c| c.prefix = HALF);
    put_case(out, "masterchain_half", half)?;
    let area_short = half.with(|c| c.area = SHORT_AREA);
    put_case(out, "area_short_masterchain_half", area_short)?;
    put_case(out, "workchain_255_half", half.with(|c| c.workchain = 255))
}

// A named partition: the seventh, and above.
fn put_partitions(out: &mut impl Write) -> io::Result<()> {
    put_case(out, "named_7_absent", sound().with(|c| c.par_id = 7))?;
    let seventh = sound().with(|c| c.seventh = true);
    put_case(out, "named_7", seventh.with(|c| c.par_id = 7))?;
    put_case(out, "named_8", seventh.with(|c| c.par_id = 8))?;
    let named_255 = seventh.with(|c| c.par_id = 255);
    put_case(out, "named_255", named_255)?;
    let equal_seqnos = named_255.with(|c| c.second = 1);
    put_case(out, "named_255_equal_seqnos", equal_seqnos)?;
    put_case(out, "last_range_lacks", sound().with(|c| c.in_last = false))?;
    put_case(out, "reader_lacks", sound().with(|c| c.in_reader = false))?;
    put_case(out, "named_range_missing", sound().with(|c| c.seqno = 3))
}

fn put_lent(out: &mut impl Write) -> io::Result<()> {
    put_case(out, "area_short", sound().with(|c| c.area = SHORT_AREA))?;
    let none_open = sound().with(|c| c.active = false);
    put_case(out, "none_open", none_open)?;
    let mark_set = none_open.with(|c| c.mark = true);
    put_case(out, "none_open_mark_set", mark_set)?;
    let cached_33 = mark_set.with(|c| c.cached = 33);
    put_case(out, "none_open_cached_33", cached_33)?;
    let open = cached_33.with(|c| c.active = true);
    put_case(out, "cached_33", open)?;
    put_case(out, "cached_33_limit_1025", open.with(|c| c.limit = 1025))
}

fn put_routes(out: &mut impl Write) -> io::Result<()> {
    put_case(out, "routes_256", sound().with(|c| c.routes = MOST_ROUTES))?;
    put_case(out, "routes_257", sound().with(|c| c.routes = LONG_ROUTES))?;
    put_case(
        out,
        "routes_35_bytes",
        sound().with(|c| c.routes = ROUTE_LEN + 1),
    )?;
    let partition_8 = sound().with(|c| c.route_partition = 8);
    put_case(out, "routes_partition_8", partition_8)?;
    let twice = sound().with(|c| c.route = 0);
    put_case(out, "routes_twice", twice)?;
    let limit_1025 = twice.with(|c| c.limit = 1025);
    put_case(out, "routes_twice_limit_1025", limit_1025)
}

fn put_empty(out: &mut impl Write) -> io::Result<()> {
    let no_ranges = sound().with(|c| c.len = 0);
    put_case(out, "no_ranges", no_ranges)?;
    let block_0 = no_ranges.with(|c| c.block_seqno = 0);
    put_case(out, "no_ranges_block_0", block_0)?;
    let no_limits = block_0.with(|c| c.no_limits = true);
    put_case(out, "no_ranges_no_limits", no_limits)
}

fn put_cases(out: &mut impl Write) -> io::Result<()> {
    put_ranges(out)?;
    put_counts(out)?;
    put_settings(out)?;
    put_shards(out)?;
    put_masterchain(out)?;
    put_partitions(out)?;
    put_lent(out)?;
    put_routes(out)?;
    put_empty(out)?;
    lent::put_reads(out)?;
    lent::put_limits(out)
}

// Where a write fails the cases end, in silence.
fn main(rt: HostRuntime) {
    let _ = put_cases(&mut rt.stdout());
}
