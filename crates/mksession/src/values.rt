// The values of fields, as words and as bytes.
ghost use Rattle.std.specs.Prelude.{◌≤◌};

use crate::record::Record;
use crate::words;

// The bytes of an account, and of an address: the workchain's byte, and the account.
const ACCOUNT: usize = 32;

const ADDRESS: usize = 1 + ACCOUNT;

#[derive(Clone, Copy, Debug, PartialEq, Eq)]
pub enum Value {
    U8,
    U32,
    U64,
    // Eight bytes, in hexadecimal digits.
    Prefix,
    // Four bytes, with a sign.
    Workchain,
    // Two bytes; none where there is no word.
    Limit,
    Account,
    Address,
    // No word: a 1, which says that what follows is there.
    Mark,
}

impl Value {
    // What stands in its place where the field is left out.
    pub fn zeros(self) -> &'static [u8] {
        match self {
            Value::Mark | Value::U8 => &[0],
            Value::Limit => &[0; 2],
            Value::U32 | Value::Workchain => &[0; 4],
            Value::U64 | Value::Prefix => &[0; 8],
            Value::Account => &[0; ACCOUNT],
            Value::Address => &[0; ADDRESS],
        }
    }

    // `None` where the word has no value that fits.
    pub fn put(self, word: &[u8], record: &mut Record) -> Option<()> {
        match self {
            Value::U8 => record.put(&u8::try_from(decimal(word)?).ok()?.to_le_bytes()),
            Value::U32 => record.put(&u32::try_from(decimal(word)?).ok()?.to_le_bytes()),
            Value::U64 => record.put(&decimal(word)?.to_le_bytes()),
            Value::Prefix => record.put(&number(word, 16)?.to_le_bytes()),
            Value::Workchain => record.put(&i32::try_from(signed(word)?).ok()?.to_le_bytes()),
            Value::Limit => record.put(&limit(word)?.to_le_bytes()),
            Value::Account => record.put(&account(word)?),
            Value::Address => record.put(&address(word)?),
            Value::Mark => record.put(&[1]),
        }
        Some(())
    }
}

// Digits alone: std's `from_str_radix` would take a plus too.
fn number(word: &[u8], radix: u32) -> Option<u64>
    requires low { 2 ≤ radix }
    requires high { radix ≤ 36 }
{
    if word.is_empty() {
        return None;
    }
    word.iter().try_fold(0u64, |n, b| {
        let digit = char::from(*b).to_digit(radix)?;
        n.checked_mul(u64::from(radix))?
            .checked_add(u64::from(digit))
    })
}

fn decimal(word: &[u8]) -> Option<u64> {
    number(word, 10)
}

// With or without a minus.
fn signed(word: &[u8]) -> Option<i64> {
    match word.strip_prefix(b"-") {
        Some(digits) => i64::try_from(decimal(digits)?).ok()?.checked_neg(),
        None => i64::try_from(decimal(word)?).ok(),
    }
}

fn limit(word: &[u8]) -> Option<u16> {
    match word {
        b"" | b"-" => Some(u16::MAX),
        _ => u16::try_from(decimal(word)?).ok(),
    }
}

// A byte of two digits.
fn byte(digits: &[u8]) -> Option<u8> {
    if digits.len() < 2 {
        return None;
    }
    u8::try_from(number(digits, 16)?).ok()
}

// Bytes as they are, two digits each.
pub fn put_bytes(word: &[u8], record: &mut Record) -> Option<()> {
    for digits in word.chunks(2) {
        record.put(&[byte(digits)?]);
    }
    Some(())
}

// Its first bytes; the others are 0.
fn account(word: &[u8]) -> Option<[u8; ACCOUNT]> {
    if 2 * ACCOUNT < word.len() {
        return None;
    }
    let mut account = [0; ACCOUNT];
    for (place, digits) in account.iter_mut().zip(word.chunks(2)) {
        *place = byte(digits)?;
    }
    Some(account)
}

// WORKCHAIN:ACCOUNT.
fn address(word: &[u8]) -> Option<[u8; ADDRESS]> {
    let (workchain, digits) = words::split_once(word, b':')?;
    let mut address = [0; ADDRESS];
    address[..1].copy_from_slice(&i8::try_from(signed(workchain)?).ok()?.to_le_bytes());
    address[1..].copy_from_slice(&account(digits)?);
    Some(address)
}

// An address, or N*ADDRESS for N of them; how many.
pub fn put_messages(word: &[u8], record: &mut Record) -> Option<u16> {
    let (n, one) = match words::split_once(word, b'*') {
        Some((n, one)) => (u16::try_from(decimal(n)?).ok()?, one),
        None => (1, word),
    };
    if n == 0 {
        return None;
    }
    let address = address(one)?;
    for _ in 0..n {
        record.put(&address);
    }
    Some(n)
}
