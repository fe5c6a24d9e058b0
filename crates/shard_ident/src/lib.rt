// Question 2 and the TON shard rule: whose account is ours.
#![tactic(auto)]

ghost use Rattle.std.specs.Prelude.{◌≡◌, ◌<◌, ◌≤◌, length};
ghost use Rattle.refusals.specs.Refusals.{number};
ghost use Rattle.rows.specs.Rows.{part};
ghost use Rattle.shard_ident.specs.Shard.{splits_masterchain, shard_number, same_workchain, same_above_tag, in_shard, big_endian, answer_of, contains_address, contains_message};

use refusals::Refusal;
use rows::MESSAGE_LEN;

// A part of a workchain: the accounts whose first bits are the prefix's above its lowest set bit, the tag.
#[repr(C)]
#[derive(Clone, Copy, Debug, PartialEq, Eq)]
pub struct ShardIdent {
    pub workchain: i32,
    pub prefix: u64,
}

// TON's masterchain, which is never split.
pub const MASTERCHAIN: i32 = -1;

// The prefix of a whole workchain, 8000000000000000 in hexadecimal.
pub const PREFIX_FULL: u64 = 9223372036854775808;

fn splits_masterchain(shard: ShardIdent) -> bool
    ensures { result ≡ splits_masterchain shard }
{
    shard.workchain == MASTERCHAIN && shard.prefix != PREFIX_FULL
}

// Question 2.
#[tactic(auto, using(crate::proofs::Laws::tag_trailing, crate::proofs::Laws::no_prefix, crate::proofs::Laws::low_tag, crate::proofs::Laws::split_masterchain, crate::proofs::Laws::high_tag))]
pub fn check_shard(shard: ShardIdent) -> Result<(), Refusal>
    ensures { number result ≡ shard_number shard }
{
    if shard.prefix == 0 || shard.prefix.trailing_zeros() < 3 || splits_masterchain(shard) {
        return Err(Refusal::NotAShard);
    }
    Ok(())
}

// A message's workchain byte is signed.
#[tactic(auto, using(crate::proofs::Signed::same_byte), unfolding(crate::specs::Shard::same_workchain))]
fn same_workchain(workchain: i32, byte: u8) -> bool
    ensures { result ≡ same_workchain workchain byte }
{
    i32::from(byte.cast_signed()) == workchain
}

// The bits above the tag are equal. The shift goes in two steps, since past a tag at bit 63 it is 64 bits, which one
// shift does not take.
#[tactic(auto, using(crate::proofs::Laws::tag_trailing, crate::proofs::Laws::half, crate::proofs::Laws::above_tag_shift))]
fn same_above_tag(prefix: u64, account: u64) -> bool
    requires { 0 < prefix }
    ensures { result ≡ same_above_tag prefix account }
{
    let tag = prefix.trailing_zeros();
    prefix >> tag >> 1 == account >> tag >> 1
}

fn in_shard(shard: ShardIdent, workchain: u8, account: u64) -> bool
    requires { 0 < shard.prefix }
    ensures { result ≡ in_shard shard workchain account }
{
    same_workchain(shard.workchain, workchain) && same_above_tag(shard.prefix, account)
}

// Whether an account, given by its first 64 bits, of a workchain, given by its signed byte, is the shard's.
#[tactic(auto, using(refusals::proofs::Laws::handed_on, refusals::proofs::Laws::number_is_some, crate::proofs::Laws::answered, crate::proofs::Laws::question_yes, crate::proofs::Laws::shard_prefix), unfolding(crate::specs::Shard::after_question))]
pub fn contains_address(shard: ShardIdent, workchain: u8, account: u64) -> Result<bool, Refusal>
    ensures { answer_of result ≡ contains_address shard workchain account }
{
    check_shard(shard)?;
    Ok(in_shard(shard, workchain, account))
}

// The account's first 64 bits, the first byte the highest. By `first_chunk` no plainer: it answers an `Option`,
// where a message always has them.
#[tactic(auto, using(crate::proofs::Laws::be_eight))]
fn first_word(message: &[u8]) -> u64
    requires { 33 ≤ length message.now }
    ensures { result ≡ big_endian (part 1 8 message.now) }
{
    u64::from_be_bytes([
        message[1], message[2], message[3], message[4], message[5], message[6], message[7],
        message[8],
    ])
}

// Whether a message, its workchain byte and its account's 32 bytes, is the shard's. Fewer bytes are no message and not
// ours; what stands after them is not looked at.
#[tactic(auto, using(refusals::proofs::Laws::handed_on, refusals::proofs::Laws::number_is_some, crate::proofs::Laws::answered, crate::proofs::Laws::question_yes, crate::proofs::Laws::shard_prefix, crate::proofs::Laws::short_message, crate::proofs::Laws::message_ours), unfolding(crate::specs::Shard::after_question))]
pub fn contains_message(shard: ShardIdent, message: &[u8]) -> Result<bool, Refusal>
    ensures { answer_of result ≡ contains_message shard message.now }
{
    check_shard(shard)?;
    Ok(MESSAGE_LEN <= message.len() && in_shard(shard, message[0], first_word(message)))
}
