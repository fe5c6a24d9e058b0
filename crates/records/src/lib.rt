// Records of a session: a kind and a payload. Question 17, and the fields of a payload; those past its end are 0.
#![tactic(auto)]

ghost use Rattle.std.specs.Prelude.{◌≡◌, ◌+◌, ◌*◌, IfOk};
ghost use Rattle.refusals.specs.Refusals as refused;
ghost use Rattle.records.specs.Records.{Decodes, kind_number, next_record, in_place, byte_within, as_stated, record_number, shard_of, limits_of, limits_in, params_of, author_of, anchor_in};

use anchors_cache::MempoolAnchor;
use cache_rules::{AUTHOR_BYTES, MAX_ANCHOR_MESSAGES};
use ext_types::{ChainTime, Seconds};
use reader_rules::MsgsExecutionParams;
use refusals::Refusal;
use rows::MESSAGE_LEN;
use shard_ident::ShardIdent;

// What a record is, by the number that it begins with.
#[derive(Clone, Copy, Debug, PartialEq, Eq)]
pub enum Kind {
    Shard = 1,
    Route = 2,
    Settings = 3,
    Anchor = 4,
    Do = 5,
}

impl From<Kind> for u16 {
    ghost from_gives = { λ kind n. n ≡ kind_number kind };

    fn from(kind: Kind) -> u16 {
        kind as u16
    }
}

// A number that no kind has is question 17's "no".
impl TryFrom<u16> for Kind {
    type Error = Refusal;

    ghost try_from_gives = { Decodes };

    fn try_from(number: u16) -> Result<Kind, Refusal> {
        match number {
            1 => Ok(Kind::Shard),
            2 => Ok(Kind::Route),
            3 => Ok(Kind::Settings),
            4 => Ok(Kind::Anchor),
            5 => Ok(Kind::Do),
            _ => Err(Refusal::Malformed),
        }
    }
}

// A record's length stands before it, and its kind first in it.
pub const LENGTH_BYTES: usize = 4;

pub const KIND_BYTES: usize = 2;

// An anchor's payload: so many bytes, then its messages.
pub const ANCHOR_HEAD_BYTES: usize = 50;

// The first bytes of a record, which say how long an anchor's is.
pub const HEAD_BYTES: usize = KIND_BYTES + ANCHOR_HEAD_BYTES;

// The most bytes of a record that can be taken: an anchor's with the most messages.
pub const LONGEST: usize = HEAD_BYTES + MESSAGE_LEN * MAX_ANCHOR_MESSAGES;

// The bytes of an anchor's payload with so many messages.
pub fn anchor_bytes(count: u16) -> usize
    ensures { result ≡ 50 + 33 * count }
{
    ANCHOR_HEAD_BYTES + MESSAGE_LEN * usize::from(count)
}

// The next record, as far as it is at hand. No plainer as `Option`: two of the three cases hold a record.
#[derive(Clone, Copy, Debug, PartialEq, Eq)]
pub enum Next {
    // its bytes: where they begin, and how many they are
    Whole(usize, usize),
    // so many bytes, more than LONGEST; its first HEAD_BYTES are at hand
    Long(usize),
    // more input is needed
    Part,
}

// What stands between two places of the input: a record's length, 4 bytes, and the record.
#[tactic(auto, unfolding(crate::specs::Records::next_record))]
pub fn next_record(input: &[u8], from: usize, end: usize) -> Next
    ensures { result ≡ next_record input.now from end }
{
    let have = end.saturating_sub(from);
    let n = rows::num_at::<u32>(input, from) as usize;
    if have < LENGTH_BYTES {
        Next::Part
    } else if LONGEST < n {
        if have < LENGTH_BYTES + HEAD_BYTES {
            Next::Part
        } else {
            Next::Long(n)
        }
    } else if have - LENGTH_BYTES < n {
        Next::Part
    } else {
        Next::Whole(from + LENGTH_BYTES, n)
    }
}

// The shard is first, the settings are second, and neither comes again.
#[tactic(auto, unfolding(crate::specs::Records::in_place))]
fn is_in_place(number: u64, kind: Kind) -> bool
    ensures { result ≡ in_place number (kind_number kind) }
{
    match number {
        0 | 1 => matches!(kind, Kind::Shard),
        2 => matches!(kind, Kind::Settings),
        _ => !matches!(kind, Kind::Shard | Kind::Settings),
    }
}

// A payload's byte is between two numbers.
#[tactic(auto, unfolding(crate::specs::Records::byte_within))]
pub fn is_byte_within(p: &[u8], at: usize, low: u8, high: u8) -> bool
    ensures { result ≡ byte_within at low high p.now }
{
    (low..=high).contains(&rows::byte_at(p, at))
}

// The length of its kind, for an anchor 33 bytes a message behind the first 50; the flag 0 or 1, the do byte one of
// the seven.
#[tactic(auto, unfolding(crate::specs::Records::as_stated))]
fn is_as_stated(kind: Kind, p: &[u8]) -> bool
    ensures { result ≡ as_stated (kind_number kind) p.now }
{
    match kind {
        Kind::Shard => p.len() == 12,
        Kind::Route => p.len() == 34,
        Kind::Settings => p.len() == 34 && is_byte_within(p, 17, 0, 1),
        Kind::Anchor => p.len() == anchor_bytes(rows::num_at(p, 48)),
        Kind::Do => p.len() == 1 && is_byte_within(p, 0, 1, 7),
    }
}

// Question 17 of the record with this number, counted from 1; its kind, where it is answered "yes".
#[tactic(auto, using(crate::proofs::Laws::no_kind), unfolding(crate::specs::Records::record_number))]
pub fn check_record(number: u64, kind: u16, p: &[u8]) -> Result<Kind, Refusal>
    ensures number { refused.number result ≡ record_number number kind p.now }
    ensures kind { IfOk result (λ k. kind_number k ≡ kind) }
{
    let kind = Kind::try_from(kind)?;
    if is_in_place(number, kind) && is_as_stated(kind, p) {
        Ok(kind)
    } else {
        Err(Refusal::Malformed)
    }
}

// Workchain 4, prefix 8.
#[tactic(auto, unfolding(crate::specs::Records::shard_of))]
pub fn shard_of(p: &[u8]) -> ShardIdent
    ensures { result ≡ shard_of p.now }
{
    ShardIdent {
        workchain: rows::num_at::<u32>(p, 0).cast_signed(),
        prefix: rows::num_at(p, 4),
    }
}

// The limits of the eight partitions; 65535 is no limit.
pub type Limits = [u16; 8];

// Eight limits of 2 bytes.
#[tactic(auto, unfolding(crate::specs::Records::limits_of))]
pub fn limits_of(bytes: &[u8]) -> Limits
    ensures { result ≡ limits_of bytes.now }
{
    std::array::from_fn(|i| rows::num_at(bytes, 2 * i))
}

// Those of the settings.
pub fn limits_in(p: &[u8]) -> Limits
    ensures { result ≡ limits_in p.now }
{
    limits_of(p.get(18..).unwrap_or(&[]))
}

// Of the settings: timeout 4 in seconds, open-ranges limit 1, new waiting 1.
#[tactic(auto, unfolding(crate::specs::Records::params_of))]
pub fn params_of(p: &[u8]) -> MsgsExecutionParams
    ensures { result ≡ params_of p.now }
{
    MsgsExecutionParams {
        externals_expire_timeout: Seconds(rows::num_at(p, 8)),
        open_ranges_limit: rows::byte_at(p, 16),
        new_is_some: rows::byte_at(p, 17) == 1,
    }
}

#[tactic(auto, unfolding(crate::specs::Records::author_of))]
fn author_of(p: &[u8]) -> [u8; AUTHOR_BYTES]
    ensures { result ≡ author_of p.now }
{
    let rest = p.get(12..).unwrap_or(&[]);
    rest.first_chunk().copied().unwrap_or([0; AUTHOR_BYTES])
}

// Id 4, chain time 8, author 32.
#[tactic(auto, unfolding(crate::specs::Records::anchor_in))]
pub fn anchor_of(p: &[u8]) -> MempoolAnchor
    ensures { result ≡ anchor_in p.now }
{
    MempoolAnchor {
        id: rows::num_at(p, 0),
        chain_time: ChainTime(rows::num_at(p, 4)),
        author: author_of(p),
    }
}
