// The cached anchors of a window. The loops go over numbers (no plainer): this crate's specs name a row by its number.
ghost use Rattle.std.specs.Prelude.{Ok, ◌≡◌, ◌+◌, ◌*◌, ◌<◌, ◌≤◌, length};
ghost use Rattle.cache_rules.specs.Rules.{max_anchors, trim_back, total, above_last, last_of};
ghost use Rattle.anchors_cache.specs.Tables.{tables_bytes, anchors};
ghost use Rattle.anchors_cache.specs.Windows.{row_time, any_places};
ghost use Rattle.anchors_cache.specs.Answers.{anchor_answer_of};
ghost use Rattle.anchors_cache.specs.Calls.{shown_anchor, sound_anchor, sound_total};

use crate::{Authored, CachedAnchor, tables};
use cache_rules::MAX_ANCHOR_MESSAGES;
use ext_types::ChainTime;

// `len` rows of the anchors' table, from row `first` on. Beside its twin `History` (no plainer): of the methods that
// look at rows no two have one body.
#[derive(Clone, Copy)]
pub(crate) struct Anchors<'a> {
    tables: &'a [u8],
    first: usize,
    len: usize,
    ghost within: { first + len ≤ max_anchors },
    ghost tall: { tables_bytes ≤ length tables.now },
}

// One anchor as question 5 wants it: its id is not below low, ours above 0 and at most the count, which is at most 512.
fn is_sound(a: CachedAnchor, low: u64) -> bool
    ensures { result ≡ sound_anchor low a }
{
    low <= u64::from(a.id)
        && 0 < a.ours
        && a.ours as usize <= a.count
        && a.count <= MAX_ANCHOR_MESSAGES
}

impl<'a> Anchors<'a> {
    // By the window's numbers (tried, slower): with the window itself a pop took 110 to 124 instructions more.
    pub(crate) fn of(tables: &'a [u8], first: usize, len: usize) -> Self
        requires { (first + len ≤ max_anchors) × (tables_bytes ≤ length tables.now) }
        ensures { (result.tables.now ≡ tables.now) × (result.first ≡ first) × (result.len ≡ len) }
    {
        Anchors { tables, first, len }
    }

    // The messages of the first `n` anchors.
    #[tactic(auto, using(crate::proofs::Laws::total_more, crate::proofs::Laws::total_none))]
    fn count_before(self, n: usize) -> usize
        requires { n ≤ self.len }
        ensures { (result ≡ total (anchors self.entry.first n self.entry.tables.now)) × (result ≤ 65535 * n) }
    {
        let mut sum = 0;
        for i in self.first..self.first + n {
            sum += tables::anchor_at(self.tables, i, 0).count;
        }
        sum
    }

    // The messages of them all.
    pub(crate) fn count(self) -> usize
        ensures { (result ≡ total (anchors self.entry.first self.entry.len self.entry.tables.now))
            × (result ≤ 65535 * self.entry.len) }
    {
        self.count_before(self.len)
    }

    // The same of anchors that are as question 5 wants them.
    pub(crate) fn sound_count(self) -> Option<usize>
        ensures { result ≡ sound_total 0 0 (anchors self.entry.first self.entry.len self.entry.tables.now) }
    {
        let mut low = 0;
        let mut sum = 0;
        for i in self.first..self.first + self.len {
            let a = tables::anchor_at(self.tables, i, 0);
            if !is_sound(a, low) {
                return None;
            }
            low = u64::from(a.id) + 1;
            sum += a.count;
        }
        Some(sum)
    }

    // Question 7.
    #[tactic(auto, using(crate::proofs::Laws::last_tests), unfolding(cache_rules::specs::Rules::last_of))]
    pub(crate) fn is_below(self, id: u32) -> bool
        ensures { result ≡ above_last id (last_of (anchors self.entry.first self.entry.len self.entry.tables.now)) }
    {
        self.len == 0 || tables::anchor_at(self.tables, self.first + (self.len - 1), 0).id < id
    }

    // How many stay where those above ct go from the back.
    #[tactic(auto, using(crate::proofs::Laws::kept_turns))]
    pub(crate) fn kept_len(self, ct: ChainTime) -> usize
        ensures { let held = anchors self.entry.first self.entry.len self.entry.tables.now in
            result ≡ length (trim_back row_time ct.0 held) }
    {
        for last in (0..self.len).rev() {
            if tables::anchor_at(self.tables, self.first + last, 0).chain_time <= ct {
                return last + 1;
            }
        }
        0
    }

    // The anchor that is `i` behind the first, whose messages begin at `base`.
    pub(crate) fn shown(self, base: usize, i: usize) -> Option<Authored<CachedAnchor>>
        requires { base ≤ any_places }
        ensures { let held = anchors self.entry.first self.entry.len self.entry.tables.now in
            anchor_answer_of (Ok result) ≡ shown_anchor i base held }
    {
        if self.len <= i {
            return None;
        }
        let place = base + self.count_before(i);
        let value = tables::anchor_at(self.tables, self.first + i, place);
        let author = tables::anchor_author(self.tables, self.first + i);
        Some(Authored { value, author })
    }
}
