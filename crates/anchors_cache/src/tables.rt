// Rows of the lent tables: 256 of 52 bytes of history, then 32 of 50 bytes of cached anchors.
// That the tables are whole stands in each contract (no plainer): `Anchors` and `History` hold it, and lend the slice.
ghost use Rattle.std.specs.Prelude.{Ok, Some, ◌≡◌, ◌+◌, ◌*◌, ◌/◌, ◌<◌, ◌≤◌, ◌&&◌, ltb, leb, length};
ghost use Rattle.std.proofs.Math.Option.{some};
ghost use Rattle.rows.specs.Rows.{part};
ghost use Rattle.cache_rules.specs.Rules.{max_anchor_messages, max_history, max_anchors, author_bytes};
ghost use Rattle.anchors_cache.specs.Tables.{tables_bytes, anchor_row, info_row, anchor_at, info_at};
ghost use Rattle.anchors_cache.specs.Answers.{info_answer_of};
ghost use Rattle.anchors_cache.specs.Calls.{cached_anchor, anchor_info_of, info_with, row_for, shown_info};

use crate::{
    ANCHOR_LEN, AnchorInfo, Authored, CachedAnchor, HISTORY_BYTES, INFO_LEN, MempoolAnchor,
    TABLES_BYTES,
};
use cache_rules::AUTHOR_BYTES;
use ext_types::ChainTime;
use rows::MESSAGE_LEN;

// Whether a table of `cap` rows has one at an index.
pub(crate) fn has_row(tables: &[u8], i: usize, cap: usize) -> bool
    ensures { result ≡ (ltb i cap && leb tables_bytes (length tables.now)) }
{
    i < cap && TABLES_BYTES <= tables.len()
}

// The anchor in a row, with the place of its first message.
#[tactic(auto, using(crate::proofs::Laws::row_num))]
pub(crate) fn anchor_at(tables: &[u8], i: usize, place: usize) -> CachedAnchor
    requires { (i < max_anchors) × (tables_bytes ≤ length tables.now) }
    ensures { (result ≡ cached_anchor place (anchor_at i tables.now)) × (result.count < 65536) }
{
    let at = HISTORY_BYTES + ANCHOR_LEN * i;
    let row = &tables[at..at + ANCHOR_LEN];
    CachedAnchor {
        id: rows::num_at::<u32>(row, 0),
        chain_time: ChainTime(rows::num_at::<u64>(row, 4)),
        ours: rows::num_at::<u32>(row, 44),
        count: usize::from(rows::num_at::<u16>(row, 48)),
        place,
    }
}

// The history entry in a row.
#[tactic(auto, using(crate::proofs::Laws::row_num))]
pub(crate) fn info_at(tables: &[u8], i: usize) -> AnchorInfo
    requires { (i < max_history) × (tables_bytes ≤ length tables.now) }
    ensures { result ≡ anchor_info_of (info_at i tables.now) }
{
    let at = INFO_LEN * i;
    let row = &tables[at..at + INFO_LEN];
    AnchorInfo {
        id: rows::num_at::<u32>(row, 0),
        ct: ChainTime(rows::num_at::<u64>(row, 4)),
        all_exts_count: rows::num_at::<u32>(row, 12),
        our_exts_count: rows::num_at::<u32>(row, 16),
    }
}

// The 32 bytes from a place of the tables. Tried: `first_chunk`, which tests the length again (14 instructions a pop).
fn author_at(tables: &[u8], at: usize) -> [u8; AUTHOR_BYTES]
    requires { at + author_bytes ≤ length tables.now }
    ensures { result ≡ part at author_bytes tables.now }
{
    let mut author = [0; AUTHOR_BYTES];
    rows::copy_in(&mut author, 0, &tables[at..at + AUTHOR_BYTES]);
    author
}

// Who wrote the anchor in a row.
pub(crate) fn anchor_author(tables: &[u8], i: usize) -> [u8; AUTHOR_BYTES]
    requires { (i < max_anchors) × (tables_bytes ≤ length tables.now) }
    ensures { result ≡ (anchor_at i tables.now).author }
{
    author_at(tables, HISTORY_BYTES + ANCHOR_LEN * i + 12)
}

// The history entry in a row, and who wrote it.
pub(crate) fn entry_at(tables: &[u8], i: usize) -> Authored<AnchorInfo>
    requires { (i < max_history) × (tables_bytes ≤ length tables.now) }
    ensures { info_answer_of (Ok (Some result)) ≡ shown_info (some (info_at i tables.now)) }
{
    let value = info_at(tables, i);
    let author = author_at(tables, INFO_LEN * i + 20);
    Authored { value, author }
}

// A history entry's row; the author stands beside the entry.
pub(crate) fn info_row(e: AnchorInfo, author: [u8; AUTHOR_BYTES]) -> [u8; INFO_LEN]
    ensures { result ≡ info_row (info_with e author) }
{
    let mut row = [0u8; INFO_LEN];
    rows::put(&mut row, 0, e.id);
    rows::put(&mut row, 4, e.ct.0);
    rows::put(&mut row, 12, e.all_exts_count);
    rows::put(&mut row, 16, e.our_exts_count);
    rows::copy_in(&mut row, 20, &author);
    row
}

pub(crate) fn anchor_row(a: MempoolAnchor, ours: u32, k: usize) -> [u8; ANCHOR_LEN]
    requires { k ≤ 33 * max_anchor_messages }
    ensures { result ≡ anchor_row (row_for a ours k) }
{
    let mut row = [0u8; ANCHOR_LEN];
    rows::put(&mut row, 0, a.id);
    rows::put(&mut row, 4, a.chain_time.0);
    rows::copy_in(&mut row, 12, &a.author);
    rows::put(&mut row, 44, ours);
    rows::put(&mut row, 48, (k / MESSAGE_LEN) as u16);
    row
}
