// Hands every call of the anchors cache states that the questions refuse, and some that they must not (README.md).
#![tactic(auto)]

mod calls;
mod state;

use anchors_cache::{AnchorsCache, AnchorsCacheTransaction, TABLES_BYTES};
use arrayvec::ArrayVec;
use cache_rules::AREA_BYTES;
use calls::{Case, New};
use state::{
    LONG_AREA, Whole, anchors, based, empty_at_end, history, messages, not_pending, sound,
};
use std::io::{self, Write};

const SHORT_AREA: usize = AREA_BYTES - 1;

// What the cases are lent, and their lines, which go out together at the end: by `write_all`, since `println!` loses
// what would have to wait.
#[derive(Drop)]
struct Cases {
    whole: Whole,
    lines: ArrayVec<u8, 16_384>,
}

fn case(whole: &Whole, area: usize, t: AnchorsCacheTransaction) -> Case<'_> {
    Case {
        whole,
        tables: TABLES_BYTES,
        area,
        t,
    }
}

// The lines of a window: as the present cache, and as what a rollback restores, with a transaction open and with none.
fn put_window(cases: &mut Cases, name: &str, area: usize, w: AnchorsCache) -> io::Result<()> {
    for (open, t) in [
        ("present", state::present(w)),
        ("undo", state::restorable(w, true)),
        ("free", state::restorable(w, false)),
    ] {
        writeln!(cases.lines, "{name} {open} {}", case(&cases.whole, area, t))?;
    }
    Ok(())
}

fn put_lent(cases: &mut Cases) -> io::Result<()> {
    put_window(cases, "sound", AREA_BYTES, sound())?;
    put_window(cases, "short_area", SHORT_AREA, sound())?;
    put_window(cases, "short_area_equal_ids", SHORT_AREA, anchors(3, 2))?;
    for (open, t) in [
        ("present", state::present(sound())),
        ("undo", state::restorable(sound(), true)),
    ] {
        let case = Case {
            tables: TABLES_BYTES - 1,
            ..case(&cases.whole, AREA_BYTES, t)
        };
        writeln!(cases.lines, "short_tables {open} {case}")?;
    }
    Ok(())
}

fn put_past_tables(cases: &mut Cases) -> io::Result<()> {
    put_window(cases, "anchors_past", AREA_BYTES, anchors(20, 13))?;
    put_window(cases, "anchors_33", AREA_BYTES, anchors(0, 33))?;
    put_window(cases, "anchors_wrap", AREA_BYTES, anchors(usize::MAX, 3))?;
    put_window(cases, "history_past", AREA_BYTES, history(250, 7))?;
    put_window(cases, "history_257", AREA_BYTES, history(0, 257))?;
    put_window(cases, "history_wrap", AREA_BYTES, history(usize::MAX, 4))
}

fn put_unsound(cases: &mut Cases) -> io::Result<()> {
    put_window(cases, "equal_ids", AREA_BYTES, anchors(3, 2))?;
    put_window(cases, "falling_ids", AREA_BYTES, anchors(11, 2))?;
    put_window(cases, "ours_0", AREA_BYTES, anchors(5, 1))?;
    put_window(cases, "ours_above_count", AREA_BYTES, anchors(6, 1))?;
    put_window(cases, "messages_513", AREA_BYTES, anchors(7, 1))?;
    put_window(cases, "messages_1025", LONG_AREA, anchors(8, 3))?;
    put_window(cases, "not_pending", AREA_BYTES, not_pending())?;
    put_window(cases, "pending", AREA_BYTES, anchors(0, 0))
}

fn put_bases(cases: &mut Cases) -> io::Result<()> {
    put_window(cases, "base_1016", AREA_BYTES, based(1016))?;
    put_window(cases, "base_1100", AREA_BYTES, messages(13, 1100))?;
    put_window(cases, "base_wrap", AREA_BYTES, based(usize::MAX))?;
    put_window(cases, "long_area_1210", LONG_AREA, messages(14, 1210))
}

// Each at a cap or an end, and none refused by 5.
fn put_ends(cases: &mut Cases) -> io::Result<()> {
    put_window(cases, "anchors_32", AREA_BYTES, anchors(20, 12))?;
    put_window(cases, "history_256", AREA_BYTES, history(0, 256))?;
    put_window(cases, "ours_all", AREA_BYTES, anchors(15, 1))?;
    put_window(cases, "messages_512", AREA_BYTES, anchors(8, 1))?;
    put_window(cases, "messages_1024", LONG_AREA, anchors(8, 2))?;
    put_window(cases, "base_1015", AREA_BYTES, based(1015))?;
    put_window(cases, "empty_at_end", AREA_BYTES, empty_at_end())?;
    put_window(cases, "long_area_1100", LONG_AREA, messages(13, 1100))?;
    put_window(cases, "long_area_1202", LONG_AREA, messages(14, 1202))
}

// What is asked of an added anchor alone.
fn put_adds(cases: &mut Cases) -> io::Result<()> {
    let sound = case(&cases.whole, AREA_BYTES, state::present(sound()));
    for (name, id, ours, bytes) in [
        ("add_512", 4, 512, 16_896),
        ("add_513", 4, 1, 16_929),
        ("add_34_bytes", 4, 1, 34),
        ("add_ours_above_count", 4, 2, 33),
        ("add_no_message", 4, 0, 0),
        ("add_last_id", 3, 0, 0),
        ("add_ours_above_count_last_id", 3, 2, 33),
    ] {
        writeln!(
            cases.lines,
            "{name} {}",
            calls::add(sound, New { id, ours, bytes })
        )?;
    }
    Ok(())
}

fn put_cases(out: &mut impl Write) -> io::Result<()> {
    let mut cases = Cases {
        whole: Whole::new(),
        lines: ArrayVec::new(),
    };
    put_lent(&mut cases)?;
    put_past_tables(&mut cases)?;
    put_unsound(&mut cases)?;
    put_bases(&mut cases)?;
    put_ends(&mut cases)?;
    put_adds(&mut cases)?;
    streams::write_all(out, &cases.lines)
}

// Where a write fails the program ends, in silence.
fn main(rt: HostRuntime) {
    let _ = put_cases(&mut rt.stdout());
}
