// The imported history of a window. The loops go over numbers (no plainer), as those of `anchors`.
ghost use Rattle.std.specs.Prelude.{Ok, ◌≡◌, ◌+◌, ◌*◌, ◌≤◌, length};
ghost use Rattle.cache_rules.specs.Rules.{max_history, drop_stale, trim_history, last_of};
ghost use Rattle.anchors_cache.specs.Tables.{tables_bytes, infos};
ghost use Rattle.anchors_cache.specs.Answers.{info_answer_of};
ghost use Rattle.anchors_cache.specs.Calls.{shown_info};

use crate::{AnchorInfo, Authored, tables};
use ext_types::ChainTime;

// `len` rows of the history's table, from row `first` on; its twin is `Anchors`.
#[derive(Clone, Copy)]
pub(crate) struct History<'a> {
    tables: &'a [u8],
    first: usize,
    len: usize,
    ghost within: { first + len ≤ max_history },
    ghost tall: { tables_bytes ≤ length tables.now },
}

impl<'a> History<'a> {
    // By the window's numbers (tried, slower), as `Anchors::of`.
    pub(crate) fn of(tables: &'a [u8], first: usize, len: usize) -> Self
        requires { (first + len ≤ max_history) × (tables_bytes ≤ length tables.now) }
        ensures { (result.tables.now ≡ tables.now) × (result.first ≡ first) × (result.len ≡ len) }
    {
        History { tables, first, len }
    }

    // How many entries stay where an anchor of chain time ct is popped; the last one always does.
    #[tactic(auto, using(crate::proofs::Laws::stale_turns))]
    pub(crate) fn fresh_len(self, ct: ChainTime) -> usize
        ensures { result ≡ length (drop_stale ct.0 (infos self.entry.first self.entry.len self.entry.tables.now)) }
    {
        for gone in 0..self.len.saturating_sub(1) {
            if ct <= tables::info_at(self.tables, self.first + gone).ct {
                return self.len - gone;
            }
        }
        self.len.min(1)
    }

    // How many stay where those above ct go from the back; the front always does.
    #[tactic(auto, using(crate::proofs::Laws::history_turns))]
    pub(crate) fn kept_len(self, ct: ChainTime) -> usize
        ensures { result ≡ length (trim_history ct.0 (infos self.entry.first self.entry.len self.entry.tables.now)) }
    {
        for last in (1..self.len).rev() {
            if tables::info_at(self.tables, self.first + last).ct <= ct {
                return last + 1;
            }
        }
        self.len.min(1)
    }

    // The last of the first `n` entries.
    pub(crate) fn shown(self, n: usize) -> Option<Authored<AnchorInfo>>
        requires { n ≤ self.len }
        ensures { info_answer_of (Ok result) ≡ shown_info (last_of (infos self.entry.first n self.entry.tables.now)) }
    {
        if n == 0 {
            return None;
        }
        Some(tables::entry_at(self.tables, self.first + (n - 1)))
    }

    pub(crate) fn last(self) -> Option<Authored<AnchorInfo>>
        ensures { let held = infos self.entry.first self.entry.len self.entry.tables.now in
            info_answer_of (Ok result) ≡ shown_info (last_of held) }
    {
        self.shown(self.len)
    }
}
