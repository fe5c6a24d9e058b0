// Document 01's questions that come before the walk.
ghost use Rattle.std.specs.Prelude.{◌≡◌};
ghost use Rattle.messages_buffer.specs.Fullness.{answer_of};
ghost use Rattle.range_reader.specs.Calls.{asked_state};

use crate::{Lent, RangeSettings};
use anchors_cache::AnchorsCacheTransaction;
use cache_rules::AREA_BYTES;
use range_rules::ExternalsRangeReaderState;
use refusals::Refusal;

// Questions 1, 2, 3, 4, 5, 9 and 10 in order, and the free places at entry.
#[tactic(auto, using(crate::proofs::Numbers::questions, std::proofs::lemmas::Bool::Decides::nat_tests), unfolding(crate::specs::Calls::asked_state, crate::specs::Calls::asked_number, messages_buffer::specs::Fullness::fill_state, messages_buffer::specs::Fullness::fill_number))]
pub(crate) fn asked(
    lent: Lent<'_>,
    t: AnchorsCacheTransaction,
    settings: RangeSettings,
    range: ExternalsRangeReaderState,
) -> Result<u16, Refusal>
    ensures { answer_of result ≡ asked_state lent.entry.tables.now lent.entry.area.now t settings.shard lent.entry.routes.now settings.limits range }
{
    if lent.area.len() < AREA_BYTES {
        return Err(Refusal::AreaTooShort);
    }
    shard_ident::check_shard(settings.shard)?;
    router::check_routes(lent.routes)?;
    messages_buffer::check_limits(settings.limits)?;
    anchors_cache::check_cache(lent.tables, lent.area, t)?;
    messages_buffer::check_partitions(range.by_partitions)?;
    if !t.active {
        return Err(Refusal::TransactionOpenOrNone);
    }
    messages_buffer::get_max_buffers_fill_state(settings.limits, range.by_partitions)
}
