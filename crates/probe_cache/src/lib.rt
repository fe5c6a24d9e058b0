// The anchors cache in a session of extprobe: its answers and its state as text, and rows put without a call.
// Text goes to lent bytes from a place on, as far as they reach; each function answers the place behind its text.
// `(out, at)` are no struct: one that holds `&mut` needs a `ghost_name` clause in each function (no plainer).
#![tactic(auto)]

ghost use Rattle.text.specs.Shown.{Puts};

use anchors_cache::{AnchorsCacheTransaction, Authored};
use ext_types::{ChainTime, ExternalKey};

pub mod given;
pub mod shown;

// The last entry imported up to a chain time; none where the call is refused.
pub fn put_info_at(
    out: &mut [u8],
    at: usize,
    tables: &[u8],
    t: AnchorsCacheTransaction,
    ct: u64,
) -> usize
    ensures { Puts (record { at = at; bytes = out.old }) (record { at = result; bytes = out.new }) }
{
    match anchors_cache::last_imported_anchor_info_at_ct(tables, t, ChainTime(ct)) {
        Ok(Some(Authored { value: info, .. })) => {
            let numbers = [
                u64::from(info.id),
                info.ct.0,
                u64::from(info.all_exts_count),
                u64::from(info.our_exts_count),
            ];
            text::put_line(out, at, b"at_ct", &numbers)
        }
        _ => text::put(out, at, b"at_ct none\n"),
    }
}

// Whether externals are pending up to the key in a payload; a refused call says no.
pub fn put_in_range(
    out: &mut [u8],
    at: usize,
    tables: &[u8],
    t: AnchorsCacheTransaction,
    p: &[u8],
) -> usize
    ensures { Puts (record { at = at; bytes = out.old }) (record { at = result; bytes = out.new }) }
{
    let key = ExternalKey {
        anchor_id: rows::num_at(p, 0),
        msgs_offset: rows::num_at(p, 4),
    };
    let is_pending = anchors_cache::check_has_pending_externals_in_range(tables, t, key).unwrap_or(
        false,
    );
    text::put_line(out, at, b"in_range", &[u64::from(is_pending)])
}
