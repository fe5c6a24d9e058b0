// The calls that are lent tables, message area, routes and output, and the lines of what a read leaves.
use crate::calls::Answer;
use crate::state::{Case, sound};
use anchors_cache::TABLES_BYTES;
use arrayvec::ArrayVec;
use cache_rules::AREA_BYTES;
use externals_reader::ReadIntoBuffers;
use range_reader::Lent;
use reader_rules::GetNextMessageGroupMode::{Continue, Refill};
use reader_rules::{ExternalsReader, GetNextMessageGroupMode, MsgsExecutionParams};
use refusals::Refusal;
use router::{MAX_ROUTES, ROUTE_LEN};
use std::io::{self, Write};

// A line, which goes out in one piece: by `write_all`, since `println!` loses what would have to wait. None comes near
// so many bytes.
pub type Line = ArrayVec<u8, 512>;

// No byte of the output is so before a read.
const UNTOUCHED: [u8; 60] = [7; 60];

pub fn has_pending(case: Case, reader: ExternalsReader) -> Result<bool, Refusal> {
    reader_offsets::has_pending_externals(&[0; TABLES_BYTES], case.transaction(), reader)
}

// One route more than may be.
pub const LONG_ROUTES: usize = ROUTE_LEN * (MAX_ROUTES + 1);

// Routes whose accounts differ, but for what the case says of the first two.
fn routes(case: Case) -> [u8; LONG_ROUTES] {
    let mut all = [0; LONG_ROUTES];
    for (account, row) in (0u16..).zip(all.chunks_exact_mut(ROUTE_LEN)) {
        rows::put(row, 1, account);
    }
    rows::put(&mut all, 35, case.route);
    all[ROUTE_LEN - 1] = case.route_partition;
    all
}

// On the parts that are lent.
fn read(
    case: Case,
    mode: GetNextMessageGroupMode,
    out: &mut [u8],
) -> Result<ReadIntoBuffers, Refusal> {
    let area = [0; AREA_BYTES];
    let routes = routes(case);
    let lent = Lent {
        tables: &[0; TABLES_BYTES],
        area: &area[..case.area.min(area.len())],
        routes: &routes[..case.routes.min(routes.len())],
    };
    externals_reader::read_into_buffers(lent, case.transaction(), case.reader(), mode, out)
}

// A refused read leaves every byte of the output.
pub fn answer_of_read(case: Case, mode: GetNextMessageGroupMode) -> Answer {
    let mut out = UNTOUCHED;
    match read(case, mode, &mut out) {
        Ok(_) => Answer::Number(0),
        Err(_) if out != UNTOUCHED => Answer::Changed,
        Err(refusal) => Answer::Number(refusal.into()),
    }
}

// What a read leaves: its number, the mark, how many ranges there are, and whether the last is fully read.
fn put_read(
    out: &mut impl Write,
    mode: GetNextMessageGroupMode,
    name: &str,
    case: Case,
) -> io::Result<()> {
    let word = match mode {
        Continue => "continue",
        Refill => "refill",
    };
    let mut output = UNTOUCHED;
    let answer = read(case, mode, &mut output);
    let number = refusals::number(answer);
    let reader = answer.map_or(case.reader(), |done| done.reader);
    let held = reader.reader_state;
    let last = held.ranges.get(..held.len).and_then(|all| all.last());
    let is_read = u8::from(last.is_some_and(|range| range.fully_read));
    let mark = u8::from(reader.all_ranges_fully_read);
    let mut line = Line::new();
    writeln!(line, "{word} {name} {number} {mark} {} {is_read}", held.len)?;
    streams::write_all(out, &line)
}

fn put_reads_of_none(out: &mut impl Write) -> io::Result<()> {
    let no_ranges = sound().with(|c| c.len = 0);
    put_read(out, Continue, "no_ranges", no_ranges)?;
    put_read(out, Refill, "no_ranges", no_ranges)?;
    let block_0 = no_ranges.with(|c| c.block_seqno = 0);
    put_read(out, Continue, "no_ranges_block_0", block_0)?;
    let block_1 = no_ranges.with(|c| c.block_seqno = 1);
    put_read(out, Continue, "no_ranges_block_1", block_1)?;
    let no_limits = no_ranges.with(|c| c.no_limits = true);
    put_read(out, Continue, "no_ranges_no_limits", no_limits)?;
    put_read(out, Refill, "no_ranges_no_limits", no_limits)?;
    let waiting = no_ranges.with(|c| c.waiting = true);
    put_read(out, Continue, "no_ranges_waiting", waiting)
}

pub fn put_reads(out: &mut impl Write) -> io::Result<()> {
    put_reads_of_none(out)?;
    put_read(out, Continue, "sound", sound())?;
    put_read(out, Refill, "sound", sound())?;
    put_read(out, Continue, "open_2", sound().with(|c| c.most = 2))?;
    let open_0 = sound().with(|c| c.most = 0);
    put_read(out, Continue, "open_0", open_0)?;
    put_read(
        out,
        Continue,
        "open_0_one_range",
        open_0.with(|c| c.len = 1),
    )?;
    put_read(out, Continue, "ranges_16", sound().with(|c| c.len = 16))?;
    put_read(out, Continue, "ranges_17", sound().with(|c| c.len = 17))?;
    let mark_set = sound().with(|c| c.mark = true);
    put_read(out, Continue, "mark_set", mark_set)?;
    let none_open = mark_set.with(|c| c.active = false);
    put_read(out, Continue, "mark_set_none_open", none_open)
}

// The limit that counts, also where question 4 would refuse the number.
pub fn put_limits(out: &mut impl Write) -> io::Result<()> {
    let mut line = Line::new();
    write!(line, "open_ranges_limit")?;
    for open_ranges_limit in [0, 1, 2, 3, 16, 255] {
        let params = MsgsExecutionParams {
            open_ranges_limit,
            ..sound().params()
        };
        write!(line, " {}", externals_reader::open_ranges_limit(params))?;
    }
    writeln!(line)?;
    streams::write_all(out, &line)
}
