// The walk over the messages of one anchor.
ghost use Rattle.std.specs.Prelude.{◌≡◌, true, [], ℕ, ◌+◌, ◌-◌, ◌/◌, ◌^◌, ◌<◌, ◌≤◌, length, get_or};
ghost use Rattle.std.proofs.lemmas.List.Edits.{sets};
ghost use Rattle.rows.specs.Rows.{pick, whole_rows};
ghost use Rattle.shard_ident.specs.Shard.{is_shard, is_ours};
ghost use Rattle.router.specs.Router.{partition_of, routes_number};
ghost use Rattle.range_rules.specs.Walks.{Buffer};
ghost use Rattle.range_rules.specs.Rules.{end_reached, raised, moved_to, key_at, ends, judge, messages_read, expired_over, entry_len};
ghost use Rattle.range_rules.specs.WalkEnd.{saved_end_before, walk_end};
ghost use Rattle.range_reader.specs.Ready.{Ready, Tells, Eight, walk_told, walk_tells, left_by};
ghost use Rattle.range_rules.specs.Bounds.{Few};
ghost use Rattle.range_reader.specs.Locals.{verdict_told, numbered, place_at, walk_of, entry_at, bytes_of, verdict_at, grown, taken, entries_of};
ghost use Rattle.cache_rules.specs.Rules.{max_messages};

use crate::{Entry, Progress, Taken, Verdict, Walk};
use ext_types::{ChainTime, ExternalKey};
use messages_buffer::ExternalsPartitionRangeReaderState;
use range_rules::{Context, ENTRY_LEN, Place, ProcessedTo, ReadCounts, ReadNextExternalsMode};
use refusals::Refusal;
use rows::MESSAGE_LEN;
use shard_ident::ShardIdent;

#[tactic(auto, using(std::proofs::lemmas::Bool::Decides::nat_tests, ext_types::proofs::Order::same_is_equal))]
pub(crate) fn end_reached(key: ExternalKey, end: ExternalKey) -> bool
    ensures { result ≡ end_reached key end }
{
    end.anchor_id < key.anchor_id || key == end
}

#[tactic(auto, using(crate::proofs::LocalLaws::the_greater_is_raised))]
fn raised(key: ExternalKey, to: ExternalKey) -> ExternalKey
    ensures { result ≡ raised key to }
{
    key.max(to)
}

// The position at a key, "to" raised if passed, the saved end judged there.
pub(crate) fn moved_to(end: ExternalKey, key: ExternalKey, p: Place) -> Place
    ensures { result ≡ moved_to end key p }
{
    Place {
        key,
        reached: end_reached(key, end),
        position: key,
        to: raised(key, p.to),
    }
}

// The key of an offset that the walk holds in 16 bits.
fn key_at(id: u32, offset: u16) -> ExternalKey
    ensures { result ≡ key_at id offset }
{
    ExternalKey {
        anchor_id: id,
        msgs_offset: u64::from(offset),
    }
}

// The place at an offset of the anchor: the one before the first message, or moved behind the last one read.
#[tactic(auto, using(std::proofs::lemmas::Bool::Decides::nat_tests), unfolding(crate::specs::Locals::place_at))]
fn place_at(end: ExternalKey, place: Place, offset: u16) -> Place
    ensures { result ≡ place_at end place offset }
{
    let key = key_at(place.key.anchor_id, offset);
    if place.key.msgs_offset == key.msgs_offset {
        return place;
    }
    moved_to(end, key, place)
}

// The saved end ends the walk.
pub(crate) fn ends(mode: ReadNextExternalsMode, reached: bool) -> bool
    ensures { result ≡ ends mode reached }
{
    match mode {
        ReadNextExternalsMode::ToTheEnd => false,
        ReadNextExternalsMode::ToPreviuosReadTo => reached,
    }
}

// From a key on, the offset at which the saved end is reached, but `last` where that is not before it.
fn saved_end_before(end: ExternalKey, key: ExternalKey, last: u64) -> u64
    ensures { result ≡ saved_end_before end key last }
{
    if end.anchor_id < key.anchor_id {
        return key.msgs_offset;
    }
    if key.anchor_id == end.anchor_id
        && key.msgs_offset <= end.msgs_offset
        && end.msgs_offset <= last
    {
        return end.msgs_offset;
    }
    last
}

// Where the walk over one anchor from a key on ends at the latest. It is worked out once, so that the walk looks at no
// saved end.
fn walk_end(mode: ReadNextExternalsMode, end: ExternalKey, key: ExternalKey, last: u64) -> u64
    ensures { result ≡ walk_end mode end key last }
{
    match mode {
        ReadNextExternalsMode::ToTheEnd => last,
        ReadNextExternalsMode::ToPreviuosReadTo => saved_end_before(end, key, last),
    }
}

// `unwrap_or` drops a refusal (no plainer): question 2 has been asked already, so there is none.
#[tactic(auto, using(shard_ident::proofs::Laws::accepted))]
fn is_ours(shard: ShardIdent, m: &[u8]) -> bool
    requires { is_shard shard ≡ true }
    ensures { result ≡ is_ours shard m.now }
{
    shard_ident::contains_message(shard, m).unwrap_or(false)
}

// Question 3 has been asked already.
#[tactic(auto, using(router::proofs::Laws::a_partition_is_at_most_7))]
fn partition_of(routes: &[u8], m: &[u8]) -> usize
    requires { routes_number routes.now ≡ 0 }
    ensures { (result ≡ partition_of routes.now m.now) × (result < 8) }
{
    usize::from(router::partition_of(routes, m))
}

// What becomes of a message of ours at a key: questions 12, 13 and 14.
#[tactic(auto, using(std::proofs::lemmas::Bool::Decides::nat_tests, ext_types::proofs::Order::greater_is_above), unfolding(range_rules::specs::Rules::judge))]
fn judged(
    processed: ProcessedTo,
    partition: ExternalsPartitionRangeReaderState,
    key: ExternalKey,
    room: bool,
) -> Result<Verdict, Refusal>
    ensures { verdict_told result ≡ judge processed partition key room }
{
    if !processed.present {
        return Err(Refusal::ProcessedMissing);
    }
    if key <= processed.key {
        return Ok(Verdict::Keep);
    }
    if !partition.present {
        return Err(Refusal::PartitionMissing);
    }
    if !room {
        return Err(Refusal::OutputFull);
    }
    Ok(Verdict::Buffer)
}

// The buffer has room, so one more is within its limit.
fn buffered(limit: u16, partition: ExternalsPartitionRangeReaderState, b: Progress) -> Taken
    requires { (partition.count + 1 ≤ limit) × (b.used + entry_len < 2 ^ 64) }
    ensures { result ≡ grown limit partition b }
{
    let count = partition.count + 1;
    Taken {
        progress: Progress {
            free: b.free.min(messages_buffer::check_is_filled(count, limit)),
            used: b.used + ENTRY_LEN,
        },
        buffered: 1,
        partition: ExternalsPartitionRangeReaderState { count, ..partition },
    }
}

fn entry_at(seqno: u32, partition: u16, id: u32, offset: u16, time: ChainTime) -> Entry
    ensures { result ≡ entry_at seqno partition id offset time }
{
    Entry {
        seqno,
        partition,
        key: key_at(id, offset),
        time,
    }
}

// An output entry: seqno, partition, anchor id, offset after reading, the anchor's chain time.
fn put_entry(out: &mut [u8], at: usize, e: Entry)
    requires { at + entry_len ≤ length out.old }
    ensures { out.new ≡ sets out.old at (bytes_of e) }
{
    let row = &mut out[at..at + ENTRY_LEN];
    rows::put(&mut *row, 0, e.seqno);
    rows::put(&mut *row, 4, e.partition);
    rows::put(&mut *row, 6, e.key.anchor_id);
    rows::put(&mut *row, 10, e.key.msgs_offset);
    rows::put(&mut *row, 18, e.time.0);
}

// An entry, where the run writes.
fn put_if(write: bool, out: &mut [u8], at: usize, e: Entry)
    requires { at + entry_len ≤ length out.old }
    ensures { out.new ≡ pick write (sets out.old at (bytes_of e)) out.old }
{
    if write {
        put_entry(out, at, e);
    }
}

// A message of ours: what becomes of it, and its entry.
// Eight parameters and not the context by value (tried, slower): that made a read of 1,024 messages 172,839
// instructions in place of 132,198.
#[tactic(auto, using(range_rules::proofs::Counts::judge_buffer, crate::proofs::LocalLaws::no_entry, std::proofs::lemmas::Bool::Decides::nat_tests), unfolding(crate::specs::Locals::taken, crate::specs::Locals::entries_of))]
fn our_read(
    e: Entry,
    processed: ProcessedTo,
    limit: u16,
    partition: ExternalsPartitionRangeReaderState,
    b: Progress,
    room: usize,
    write: bool,
    out: &mut [u8],
) -> Result<Taken, Refusal>
    requires { (length out.old ≡ room) × (partition.present ≡ true → partition.count + 1 ≤ limit) }
    ensures { (numbered result ≡ taken (verdict_at processed partition e.key b room) limit partition b) × (out.new ≡ pick write (sets out.old b.used (entries_of (verdict_at processed partition e.key b room) e)) out.old) }
{
    let has_room = rows::sum_within(b.used, ENTRY_LEN, room);
    match judged(processed, partition, e.key, has_room)? {
        Verdict::Keep => Ok(Taken {
            progress: b,
            buffered: 0,
            partition,
        }),
        Verdict::Buffer => {
            put_if(write, out, b.used, e);
            Ok(buffered(limit, partition, b))
        }
    }
}

// The messages of the rest of an anchor, in order, until the walk is stopped. The walk's arrays are changed in place;
// its place follows from the offset, which 16 bits hold as far as there are messages.
// Longer than 40 lines (no plainer): a function for one message would be handed the walk's three arrays, its offset
// and progress, and every parameter but `w`, again for each message.
pub(crate) fn messages_read(
    x: Context,
    routes: &[u8],
    time: ChainTime,
    rest: &[u8],
    write: bool,
    w: &mut Walk,
    out: &mut [u8],
) -> Result<(), Refusal>
    requires { Ready x routes.now out.old × (w.old.place.key.msgs_offset + length rest.now / 33 < 2 ^ 16) × Few x (length rest.now / 33) (walk_told w.old) × Eight (walk_told w.old) × (w.old.place.reached ≡ end_reached w.old.place.key x.saved_end) }
    ensures { Tells write w.old.buffers.used out.old out.new (walk_tells (left_by result w.new)) (messages_read x routes.now time (whole_rows 33 rest.now) (record { value = walk_told w.old; entries = [] })) }
{
    let first = w.place.key;
    let last = first.msgs_offset + (rest.len() / MESSAGE_LEN) as u64;
    let end = walk_end(x.mode, x.saved_end, first, last) as u16;
    let mut offset = first.msgs_offset as u16;
    let mut b = Progress::from(w.buffers);
    let partitions = &mut w.buffers.by_partitions;
    let read = &mut w.counts.read;
    let buffered = &mut w.counts.buffered;
    let mut at = 0;
    // A `while`: the offset's test in 16 bits ends the walk. An iterator over the messages keeps and tests the bytes
    // left, 64 bits on every board (tried: 126,921 instructions in place of 119,546 for a read of 1,024 messages).
    while offset < end {
        // Before its end, the walk stops where a buffer is full.
        if b.free == 0 {
            break;
        }
        let m = &rest[at..at + MESSAGE_LEN];
        offset += 1;
        at += MESSAGE_LEN;
        if is_ours(x.shard, m) {
            let p = partition_of(routes, m);
            let e = entry_at(x.seqno, p as u16, first.anchor_id, offset, time);
            let t = our_read(
                e,
                x.processed[p],
                x.limits[p],
                partitions[p],
                b,
                x.room,
                write,
                &mut *out,
            )?;
            read[p] += 1;
            buffered[p] += t.buffered;
            partitions[p] = t.partition;
            b = t.progress;
        }
    }
    w.place = place_at(x.saved_end, w.place, offset);
    w.buffers.free = b.free;
    w.buffers.used = b.used;
    Ok(())
}

// The messages of ours among those of an expired anchor, counted per partition.
#[tactic(auto, using(crate::proofs::MessageLaws::counted_end, crate::proofs::MessageLaws::counted_other, crate::proofs::MessageLaws::counted_ours, std::proofs::lemmas::Grind::common_steps))]
pub(crate) fn count_expired(shard: ShardIdent, routes: &[u8], rest: &[u8], counts: &mut [u32; 8])
    requires { (is_shard shard ≡ true) × (routes_number routes.now ≡ 0) × (length rest.now / 33 ≤ max_messages) × ((i : ℕ) → get_or counts.old i 0 ≤ max_messages - length rest.now / 33) }
    ensures { counts.new ≡ expired_over shard routes.now (whole_rows 33 rest.now) counts.old }
{
    for m in rest.chunks_exact(MESSAGE_LEN) {
        if is_ours(shard, m) {
            counts[partition_of(routes, m)] += 1;
        }
    }
}
