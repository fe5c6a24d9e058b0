// Whether it is certain at entry that no question refuses the read half-way: then no run is needed that only decides
// that.
ghost use Rattle.std.specs.Prelude.{◌≡◌, leb};
ghost use Rattle.anchors_cache.specs.Tables.{anchors, anchors_of};
ghost use Rattle.range_rules.specs.Rules.{offset_in};
ghost use Rattle.range_rules.specs.Refusals.{is_open, all_open, all_fit, cannot_refuse};
ghost use Rattle.range_reader.specs.Ready.{Windowed};

use crate::{Lent, anchors};
use anchors_cache::AnchorsCache;
use ext_types::ExternalKey;
use messages_buffer::ExternalsPartitionRangeReaderState;
use range_rules::{Context, ENTRY_LEN, ProcessedTo};
use router::ROUTE_LEN;
use rows::MESSAGE_LEN;

// Questions 12 and 13, for a partition; past the last one there is none.
fn is_open(
    processed: &[ProcessedTo; 8],
    partitions: &[ExternalsPartitionRangeReaderState; 8],
    p: usize,
) -> bool
    ensures { result ≡ is_open processed.now partitions.now p }
{
    p < 8 && processed[p].present && partitions[p].present
}

// The same for every partition that a message can have.
fn all_open(
    routes: &[u8],
    processed: &[ProcessedTo; 8],
    partitions: &[ExternalsPartitionRangeReaderState; 8],
) -> bool
    ensures { result ≡ all_open processed.now partitions.now routes.now }
{
    is_open(processed, partitions, 0)
        && routes.chunks_exact(ROUTE_LEN).all(|route| {
            is_open(
                processed,
                partitions,
                usize::from(rows::byte_at(route, MESSAGE_LEN)),
            )
        })
}

// Question 11, for one anchor. The offset is compared as it is, since it may be any 64 bits.
fn starts_within(position: ExternalKey, id: u32, count: usize) -> bool
    ensures { result ≡ leb (offset_in position id) count }
{
    anchors::offset_in(position, id) <= count as u64
}

// Questions 11 and 14, for every anchor of the window.
#[tactic(auto, using(crate::proofs::RefusalLaws::fit_end))]
fn all_fit(tables: &[u8], first: usize, len: usize, position: ExternalKey, room: usize) -> bool
    requires { Windowed tables.now first len }
    ensures { result ≡ all_fit position room (anchors first len tables.now) }
{
    let mut sum = 0;
    for at in first..first + len {
        let a = anchors_cache::cached_row(tables, at, 0);
        if !starts_within(position, a.id, a.count) {
            return false;
        }
        sum += a.count;
    }
    ENTRY_LEN * sum <= room
}

#[tactic(auto, using(std::proofs::lemmas::Bool::Decides::nat_tests), unfolding(range_rules::specs::Refusals::cannot_refuse))]
pub(crate) fn cannot_refuse(
    lent: Lent<'_>,
    c: AnchorsCache,
    x: Context,
    partitions: [ExternalsPartitionRangeReaderState; 8],
) -> bool
    requires { Windowed lent.tables.now c.first c.len }
    ensures { result ≡ cannot_refuse x partitions lent.entry.routes.now (anchors_of lent.entry.tables.now c) }
{
    all_open(lent.routes, &x.processed, &partitions)
        && all_fit(lent.tables, c.first, c.len, x.position, x.room)
}
