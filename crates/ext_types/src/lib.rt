// Time and keys of externals, each with a type of its own.
#![tactic(auto)]

ghost use Rattle.std.specs.Prelude.{◌≡◌};
ghost use Rattle.ext_types.specs.Time.{millis_of, expired_at};

// An expiry timeout in whole seconds.
#[repr(C)]
#[derive(Clone, Copy, Debug, PartialEq, Eq, PartialOrd, Ord)]
pub struct Seconds(pub u32);

// A chain time, or a span of it, in milliseconds.
#[repr(C)]
#[derive(Clone, Copy, Debug, PartialEq, Eq, PartialOrd, Ord)]
pub struct ChainTime(pub u64);

// The place after a message that was read: the anchor's id and how many of its messages were read. Keys are ordered by
// the id, then by the offset (proofs/Order says it of `>` and `==`).
#[repr(C)]
#[derive(Clone, Copy, Debug, PartialEq, Eq, PartialOrd, Ord)]
pub struct ExternalKey {
    pub anchor_id: u32,
    pub msgs_offset: u64,
}

// Before every anchor.
pub const NO_KEY: ExternalKey = ExternalKey {
    anchor_id: 0,
    msgs_offset: 0,
};

// The timeout in chain time's unit. The age test takes chain times only, so a `Seconds` comes to it through here alone.
// The fields are public: whoever builds a `ChainTime` from a bare number answers for the number's unit.
impl From<Seconds> for ChainTime {
    ghost from_gives = { λ s t. t ≡ millis_of s };

    fn from(timeout: Seconds) -> ChainTime {
        ChainTime(u64::from(timeout.0) * 1000)
    }
}

// The age of an anchor, read in a range, is above the limit.
pub fn is_expired(range: ChainTime, anchor: ChainTime, limit: ChainTime) -> bool
    ensures { result ≡ expired_at range anchor limit }
{
    limit.0 < range.0.saturating_sub(anchor.0)
}
