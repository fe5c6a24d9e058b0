// What the cases hand in: tables with sound and unsound anchor rows, an area, windows on them.
use anchors_cache::{
    ANCHOR_LEN, AnchorsCache, AnchorsCacheTransaction, HISTORY_BYTES, TABLES_BYTES,
};
use cache_rules::{MAX_ANCHORS, MAX_HISTORY, MAX_MESSAGES};
use std::array;

// The longest area that is lent.
pub const LONG_AREA: usize = 40_000;

// Rows 3 and 4 have one id, row 12 has one below that of row 11.
fn id_of(i: u32) -> u32 {
    match i {
        4 => 4,
        12 => 5,
        _ => i.wrapping_add(1),
    }
}

// None in row 5, more than there are messages in row 6, all of the messages in row 15.
fn ours_of(i: u32) -> u32 {
    match i {
        5 => 0,
        6 => 2,
        15 => 3,
        _ => 1,
    }
}

// Row 7 is above the cap of an anchor, row 8 at it; rows 8 and 9 are at the cap of the cache, rows 8 to 10 above it.
fn count_of(i: u32) -> u16 {
    match i {
        0 => 2,
        1 => 3,
        2 => 4,
        7 => 513,
        8 | 9 => 512,
        13 => 100,
        14 => 10,
        15 => 3,
        _ => 1,
    }
}

// What every case is lent a part of. It is made once, and copied where a call may write.
#[derive(Clone, Copy)]
pub struct Whole {
    pub tables: [u8; TABLES_BYTES],
    pub area: [u8; LONG_AREA],
}

impl Whole {
    pub fn new() -> Self {
        Whole {
            tables: tables(),
            area: area(),
        }
    }
}

// For a call that may write.
pub fn copy<const N: usize>(bytes: &[u8; N]) -> [u8; N] {
    *bytes
}

// The anchors' rows stand behind the history.
pub fn tables() -> [u8; TABLES_BYTES] {
    let mut all = [7; TABLES_BYTES];
    for (i, row) in (0..32).zip(all[HISTORY_BYTES..].chunks_exact_mut(ANCHOR_LEN)) {
        rows::put(row, 0, id_of(i));
        rows::put(row, 44, ours_of(i));
        rows::put(row, 48, count_of(i));
    }
    all
}

// Not all alike, so that a move within the area would show.
pub fn area() -> [u8; LONG_AREA] {
    array::from_fn(|i| (i % 251) as u8)
}

// Rows 0 to 2, of 2, 3 and 4 messages from place 10 on, and four history entries.
pub fn sound() -> AnchorsCache {
    AnchorsCache {
        first: 0,
        len: 3,
        history_first: 2,
        history_len: 4,
        base: 10,
        pending: true,
    }
}

// The sound window but for its anchors; pending stays set, so with none it is wrong.
pub fn anchors(first: usize, len: usize) -> AnchorsCache {
    AnchorsCache {
        first,
        len,
        ..sound()
    }
}

pub fn history(history_first: usize, history_len: usize) -> AnchorsCache {
    AnchorsCache {
        history_first,
        history_len,
        ..sound()
    }
}

pub fn messages(first: usize, base: usize) -> AnchorsCache {
    AnchorsCache {
        base,
        ..anchors(first, 1)
    }
}

pub fn based(base: usize) -> AnchorsCache {
    AnchorsCache { base, ..sound() }
}

pub fn not_pending() -> AnchorsCache {
    AnchorsCache {
        pending: false,
        ..sound()
    }
}

// None cached, and each table's end named.
pub fn empty_at_end() -> AnchorsCache {
    AnchorsCache {
        first: MAX_ANCHORS,
        len: 0,
        history_first: MAX_HISTORY,
        history_len: 0,
        base: MAX_MESSAGES,
        pending: false,
    }
}

// A cache with no transaction open.
pub fn present(cache: AnchorsCache) -> AnchorsCacheTransaction {
    AnchorsCacheTransaction {
        cache,
        undo: sound(),
        active: false,
        committed: false,
    }
}

// The sound cache, with what a rollback would restore if a transaction is open.
pub fn restorable(undo: AnchorsCache, active: bool) -> AnchorsCacheTransaction {
    AnchorsCacheTransaction {
        cache: sound(),
        undo,
        active,
        committed: false,
    }
}
