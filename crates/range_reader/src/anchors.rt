// The range's read over the cached anchors. The cache is seen by index; the pops are counted.
ghost use Rattle.std.specs.Prelude.{◌≡◌, ◌&&◌, ◌+◌, ◌*◌, ◌<◌, ◌≤◌, length, drop};
ghost use Rattle.rows.specs.Rows.{rows};
ghost use Rattle.cache_rules.specs.Rules.{max_anchors};
ghost use Rattle.anchors_cache.specs.Tables.{anchors, anchors_of, tables_bytes};
ghost use Rattle.anchors_cache.specs.Calls.{anchor_found};
ghost use Rattle.range_rules.specs.Rules.{offset_in, looked, expired, finished, anchor_read};
ghost use Rattle.range_rules.specs.Refusals.{cannot_refuse};
ghost use Rattle.range_reader.specs.Ready.{AnchorReady, RangeReady, Tells, Windowed, walk_told, range_told, range_tells, left_by, first_unread, whole_window_read, read_or_refused};

use crate::{Lent, RangeRead, Walk, halfway, messages};
use anchors_cache::{AnchorsCache, CachedAnchor};
use ext_types::{ChainTime, ExternalKey};
use range_rules::Context;
use refusals::Refusal;
use rows::MESSAGE_LEN;

// The front of the `left` anchors from index `at` on.
#[tactic(auto, using(anchors_cache::proofs::Laws::anchors_none, anchors_cache::proofs::Laws::anchors_cons, std::proofs::lemmas::Bool::Decides::nat_tests), unfolding(anchors_cache::specs::Calls::row_at))]
fn front_anchor(tables: &[u8], at: usize, left: usize, place: usize) -> Option<CachedAnchor>
    requires { (at + left ≤ max_anchors) × (tables_bytes ≤ length tables.now) }
    ensures { result ≡ anchor_found place (anchors at left tables.now) }
{
    if left == 0 {
        return None;
    }
    Some(anchors_cache::cached_row(tables, at, place))
}

// The position's offset in an anchor.
pub(crate) fn offset_in(position: ExternalKey, id: u32) -> u64
    ensures { result ≡ offset_in position id }
{
    if position.anchor_id == id {
        return position.msgs_offset;
    }
    0
}

// An anchor looked at: the offset, and the saved end judged there.
#[tactic(auto, unfolding(range_rules::specs::Rules::looked))]
fn look(x: Context, id: u32, w: &mut Walk)
    ensures { walk_told w.new ≡ looked x id (walk_told w.old) }
{
    let key = ExternalKey {
        anchor_id: id,
        msgs_offset: offset_in(x.position, id),
    };
    w.place.key = key;
    w.place.reached = messages::end_reached(key, x.saved_end);
}

// The first message from the offset on; past the end, the end. The offset is compared as it is, since it may be any 64
// bits.
fn first_unread(offset: u64, count: usize) -> usize
    ensures { (result ≡ first_unread offset count) × (result ≤ count) × (offset ≤ count → result ≡ offset) }
{
    offset.min(count as u64) as usize
}

// Step 4, where the messages are counted: the position is (id, offset), not the anchor's end.
#[tactic(auto, unfolding(range_rules::specs::Rules::expired))]
fn expire(x: Context, time: ChainTime, r: &mut RangeRead)
    requires { r.old.pops < max_anchors }
    ensures { range_told r.new ≡ expired x time r.old.walk.counts.expired (walk_told r.old.walk) (range_told r.old) }
{
    r.walk.place = messages::moved_to(x.saved_end, r.walk.place.key, r.walk.place);
    r.pops += 1;
    r.ended = false;
    r.last = Some(time);
}

// Step 6, and question 11 where nothing was popped and nothing ends the read.
#[tactic(auto, using(std::proofs::lemmas::Bool::Decides::nat_tests), unfolding(range_rules::specs::Rules::finished, range_rules::specs::Rules::refused_with))]
fn finish(x: Context, time: ChainTime, count: usize, r: &mut RangeRead) -> Result<(), Refusal>
    requires { r.old.pops < max_anchors }
    ensures { range_tells (left_by result r.new) (finished x time count (walk_told r.old.walk) (range_told r.old)) }
{
    let whole = r.walk.place.key.msgs_offset == count as u64;
    let fully_read = messages::ends(x.mode, r.walk.place.reached);
    let ended = fully_read || r.walk.buffers.free == 0;
    if !whole && !ended {
        return Err(Refusal::PositionPastEnd);
    }
    if whole {
        r.pops += 1;
    }
    if fully_read {
        r.fully_read = true;
    }
    r.ended = ended;
    r.last = Some(time);
    Ok(())
}

// One look at the front anchor. The read is changed in place; a refused one is of no use.
// Not a `Result` of the read by value (tried, slower): that copied it for each anchor, 106,782 instructions for 98,389.
fn anchor_read(
    lent: Lent<'_>,
    x: Context,
    a: CachedAnchor,
    write: bool,
    r: &mut RangeRead,
    out: &mut [u8],
) -> Result<(), Refusal>
    requires { AnchorReady x lent.routes.now lent.area.now a r.old out.old }
    ensures { Tells write r.old.walk.buffers.used out.old out.new (range_tells (left_by result r.new)) (anchor_read x lent.entry.routes.now a.id a.chain_time (rows 33 a.count (drop (33 * a.place) lent.entry.area.now)) (range_told r.old)) }
{
    // Step 2.
    if a.id < x.position.anchor_id {
        r.pops += 1;
        return Ok(());
    }
    look(x, a.id, &mut r.walk);
    let offset = r.walk.place.key.msgs_offset;
    let from = first_unread(offset, a.count);
    let rest = &lent.area[MESSAGE_LEN * (a.place + from)..MESSAGE_LEN * (a.place + a.count)];
    if ext_types::is_expired(x.chain_time, a.chain_time, x.limit) {
        messages::count_expired(x.shard, lent.routes, rest, &mut r.walk.counts.expired);
        expire(x, a.chain_time, r);
        return Ok(());
    }
    // Past the end no message is left, and the offset may be any 64 bits.
    if offset <= a.count as u64 {
        messages::messages_read(x, lent.routes, a.chain_time, rest, write, &mut r.walk, out)?;
    }
    finish(x, a.chain_time, a.count, r)
}

// The front anchor again and again, until the read ends. `loop` with `let .. else`: document 01 names the form.
fn anchors_read(
    lent: Lent<'_>,
    c: AnchorsCache,
    x: Context,
    write: bool,
    r: &mut RangeRead,
    out: &mut [u8],
) -> Result<(), Refusal>
    requires { RangeReady lent.tables.now lent.area.now c lent.routes.now x r.old out.old }
    ensures { Tells write r.old.walk.buffers.used out.old out.new (range_tells (left_by result r.new)) (whole_window_read x lent.entry.routes.now lent.entry.tables.now lent.entry.area.now c r.old) }
{
    let mut at = c.first;
    let mut left = c.len;
    let mut place = c.base;
    loop {
        // Step 1.
        let Some(a) = front_anchor(lent.tables, at, left, place) else {
            r.fully_read = true;
            r.ended = true;
            return Ok(());
        };
        anchor_read(lent, x, a, write, &mut *r, &mut *out)?;
        if r.ended {
            return Ok(());
        }
        at += 1;
        left -= 1;
        place += a.count;
    }
}

// Where no question can refuse the read half-way, it is written at once.
fn writes_at_once(
    lent: Lent<'_>,
    c: AnchorsCache,
    x: Context,
    begin: RangeRead,
    write: bool,
) -> bool
    requires { Windowed lent.tables.now c.first c.len }
    ensures { result ≡ (write && cannot_refuse x begin.walk.buffers.by_partitions lent.entry.routes.now (anchors_of lent.entry.tables.now c)) }
{
    write && halfway::cannot_refuse(lent, c, x, begin.walk.buffers.by_partitions)
}

// First without writing, unless it is certain that the read is not refused; where that run is not refused and `write`
// is set, once more with writing.
pub(crate) fn read_or_refuse(
    lent: Lent<'_>,
    c: AnchorsCache,
    x: Context,
    begin: RangeRead,
    write: bool,
    out: &mut [u8],
) -> Result<RangeRead, Refusal>
    requires { RangeReady lent.tables.now lent.area.now c lent.routes.now x begin out.old }
    ensures { (range_tells result (read_or_refused write out.old begin.walk.buffers.used (whole_window_read x lent.entry.routes.now lent.entry.tables.now lent.entry.area.now c begin)).value)
        × (out.new ≡ (read_or_refused write out.old begin.walk.buffers.used (whole_window_read x lent.entry.routes.now lent.entry.tables.now lent.entry.area.now c begin)).entries) }
{
    let mut r = begin;
    if writes_at_once(lent, c, x, begin, write) {
        anchors_read(lent, c, x, true, &mut r, out)?;
        return Ok(r);
    }
    anchors_read(lent, c, x, false, &mut r, &mut *out)?;
    if write {
        r = begin;
        anchors_read(lent, c, x, true, &mut r, out)?;
    }
    Ok(r)
}
