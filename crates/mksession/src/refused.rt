// Why a line is no record.
use std::fmt;
use std::io::{self, Write};

#[derive(Clone, Copy, Debug, PartialEq, Eq)]
pub enum Reason {
    Unknown,
    NotHere,
    NoValue,
    Surplus,
    LongRecord,
    LongLine,
    Unread,
}

impl fmt::Display for Reason {
    fn fmt<W: fmt::Write>(&self, f: &mut fmt::Formatter<W>) -> fmt::Result {
        f.write_str(match self {
            Reason::Unknown => " is an unknown word",
            Reason::NotHere => " should be here",
            Reason::NoValue => " has no value that fits",
            Reason::Surplus => " is one word too many",
            Reason::LongRecord => "a record of more than 131,072 bytes",
            Reason::LongLine => "more than 65,536 bytes",
            Reason::Unread => "can't be read",
        })
    }
}

impl Reason {
    pub fn of(self, word: &[u8]) -> Refused<'_> {
        Refused { word, reason: self }
    }
}

// The reason, and the word or the name of the field that it is about, if there is one.
#[derive(Clone, Copy, Debug)]
pub struct Refused<'a> {
    pub word: &'a [u8],
    pub reason: Reason,
}

impl Refused<'_> {
    // A word need not be text, so its bytes go out as they are.
    pub fn tell<W: Write>(self, errors: &mut W, line: u64) -> io::Result<()> {
        write!(errors, "line {line}: ")?;
        errors.write_all(self.word)?;
        writeln!(errors, "{}", self.reason)
    }
}
