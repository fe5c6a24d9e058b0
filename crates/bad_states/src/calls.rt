// Every call of the cache on one state, and what they answer.
use crate::state::{self, Whole};
use anchors_cache::{AnchorInfo, AnchorsCacheTransaction, MempoolAnchor};
use cache_rules::{AUTHOR_BYTES, MAX_ANCHOR_MESSAGES};
use ext_types::{ChainTime, ExternalKey};
use refusals::number;
use rows::MESSAGE_LEN;
use std::fmt;

// How many bytes of the tables and of the area are lent, and the state that is handed in.
#[derive(Clone, Copy)]
pub struct Case<'a> {
    pub whole: &'a Whole,
    pub tables: usize,
    pub area: usize,
    pub t: AnchorsCacheTransaction,
}

// An anchor to be added, with so many bytes of messages.
#[derive(Clone, Copy, Debug)]
pub struct New {
    pub id: u32,
    pub ours: u32,
    pub bytes: usize,
}

// The number of a call; or a refused one changed what it was lent, which no `Result` with a refusal says (no plainer).
#[derive(Clone, Copy, Debug, PartialEq, Eq)]
pub enum Answer {
    Number(u8),
    Changed,
}

impl fmt::Display for Answer {
    fn fmt<W: fmt::Write>(&self, f: &mut fmt::Formatter<W>) -> fmt::Result {
        match self {
            Answer::Number(number) => write!(f, "{number}"),
            Answer::Changed => write!(f, "changed"),
        }
    }
}

// A refused add leaves every byte of tables and area.
pub fn add(case: Case<'_>, new: New) -> Answer {
    let mut tables = state::copy(&case.whole.tables);
    let mut area = state::copy(&case.whole.area);
    let (n, m) = (case.tables.min(tables.len()), case.area.min(area.len()));
    let messages = [9; MESSAGE_LEN * (MAX_ANCHOR_MESSAGES + 1)];
    let k = new.bytes.min(messages.len());
    let anchor = MempoolAnchor {
        id: new.id,
        chain_time: ChainTime(5000),
        author: [9; AUTHOR_BYTES],
    };
    let added = anchors_cache::add(
        &mut tables[..n],
        &mut area[..m],
        case.t,
        anchor,
        new.ours,
        &messages[..k],
    );
    if added.is_err() && (tables != case.whole.tables || area != case.whole.area) {
        return Answer::Changed;
    }
    Answer::Number(number(added))
}

// An entry to the history alone; a refused one leaves every byte of the tables.
fn add_info(case: Case<'_>) -> Answer {
    let mut tables = state::copy(&case.whole.tables);
    let area = &case.whole.area;
    let (n, m) = (case.tables.min(tables.len()), case.area.min(area.len()));
    let info = AnchorInfo {
        id: 1000,
        ct: ChainTime(5000),
        all_exts_count: 1,
        our_exts_count: 1,
    };
    let added = anchors_cache::add_imported_anchor_info(
        &mut tables[..n],
        &area[..m],
        case.t,
        info,
        [9; AUTHOR_BYTES],
    );
    if added.is_err() && tables != case.whole.tables {
        return Answer::Changed;
    }
    Answer::Number(number(added))
}

// Of the calls that are lent tables and area as they are.
fn changes(tables: &[u8], area: &[u8], t: AnchorsCacheTransaction) -> [u8; 9] {
    [
        number(anchors_cache::pop_front(tables, area, t)),
        number(anchors_cache::pop_fronts(tables, area, t, 2)),
        number(anchors_cache::remove_last_imported_above(tables, area, t, ChainTime(5000))),
        number(anchors_cache::clear(tables, area, t)),
        number(anchors_cache::open(tables, area, t)),
        number(anchors_cache::commit(tables, area, t)),
        number(anchors_cache::rollback(tables, area, t)),
        number(anchors_cache::close(tables, area, t)),
        number(anchors_cache::check_cache(tables, area, t)),
    ]
}

// Of the calls that are lent no area.
fn looks(tables: &[u8], t: AnchorsCacheTransaction) -> [u8; 6] {
    let up_to = ExternalKey {
        anchor_id: 2,
        msgs_offset: 0,
    };
    [
        number(anchors_cache::last_imported_anchor_info(tables, t)),
        number(anchors_cache::last_imported_anchor_info_at_ct(tables, t, ChainTime(5000))),
        number(anchors_cache::get_last_imported_anchor_id_and_ct(tables, t)),
        number(anchors_cache::get(tables, t, 0)),
        number(anchors_cache::has_pending_externals(tables, t)),
        number(anchors_cache::check_has_pending_externals_in_range(tables, t, up_to)),
    ]
}

// The answers on the case, in the order of the README.
impl fmt::Display for Case<'_> {
    fn fmt<W: fmt::Write>(&self, f: &mut fmt::Formatter<W>) -> fmt::Result {
        let Whole { tables, area } = self.whole;
        let tables = &tables[..self.tables.min(tables.len())];
        let area = &area[..self.area.min(area.len())];
        let new = New {
            id: 1000,
            ours: 1,
            bytes: MESSAGE_LEN,
        };
        write!(f, "{}", add(*self, new))?;
        for number in changes(tables, area, self.t) {
            write!(f, " {number}")?;
        }
        for number in looks(tables, self.t) {
            write!(f, " {number}")?;
        }
        write!(f, " {}", add_info(*self))
    }
}
