// Bytes from a reader and to a writer. A call that a signal interrupted, or that would have had to wait, is made again;
// turns are counted, for a proved loop has to end.
#![tactic(auto)]

ghost use Rattle.std.specs.Prelude.{◌≡◌, ◌≤◌, ◌<◌, ◌⊎◌, ◌↔◌, IsOk, IfErr, IfOk, OnOk, length, take};
ghost use Rattle.std.specs.IoError.{error_kind};
ghost use Rattle.std.specs.Io.KnownBytes.{Appends, Consumes, IsAtEnd};
ghost use Rattle.streams.specs.Reads.{Within, Takes, AppendsFront, came};

use std::error::Error;
use std::io::{self, ErrorKind, Read, Write};
use std::{fmt, thread};

/// A read failed behind the first `n` bytes.
#[derive(Clone, Copy, Debug)]
pub struct Cut {
    pub n: usize,
    pub error: io::Error,
}

impl fmt::Display for Cut {
    fn fmt<W: fmt::Write>(&self, f: &mut fmt::Formatter<W>) -> fmt::Result {
        write!(f, "after {} bytes: {}", self.n, self.error)
    }
}

impl Error for Cut {}

// After a call that failed: `Ok` where it is to be made again. Where it would have had to wait, others run first.
fn passed(error: io::Error) -> io::Result<()>
    ensures again { IsOk result ↔ ((error_kind error ≡ ErrorKind.WouldBlock) ⊎ (error_kind error ≡ ErrorKind.Interrupted)) }
    ensures same { IfErr result (λ e. e ≡ error) }
{
    match error.kind() {
        ErrorKind::WouldBlock => {
            thread::yield_now();
            Ok(())
        }
        ErrorKind::Interrupted => Ok(()),
        _ => Err(error),
    }
}

/// One read, for which a byte at least is lent: how many bytes came, or `None` at the end of the input.
pub fn read<R: Read>(input: &mut R, bytes: &mut [u8]) -> io::Result<Option<usize>>
    ensures within { Within (length bytes.new) result }
    ensures taken { Takes (R.remaining input.old) (R.remaining input.new) result bytes.new }
{
    for _ in 0..u64::MAX {
        match input.read(bytes) {
            Ok(0) => return Ok(None),
            Ok(n) => return Ok(Some(n)),
            Err(error) => passed(error)?,
        }
    }
    Err(ErrorKind::TimedOut.into())
}

/// Reads till the bytes are full or the input ends, and answers how many came.
// A `while`, for it counts bytes that arrive, which no iterator yields.
pub fn fill<R: Read>(input: &mut R, bytes: &mut [u8]) -> Result<usize, Cut>
    ensures within { came result ≤ length bytes.new }
    ensures taken { Consumes (R.remaining input.old) (R.remaining input.new) (take (came result) bytes.new) }
    ensures ended { IfOk result (λ n. n < length bytes.new → IsAtEnd (R.remaining input.new)) }
{
    let mut n = 0;
    while n < bytes.len() {
        match read(input, &mut bytes[n..]) {
            Ok(Some(k)) => n += k,
            Ok(None) => return Ok(n),
            Err(error) => return Err(Cut { n, error }),
        }
    }
    Ok(n)
}

/// All the bytes go out. Where a write fails, a front of them may have gone, and nothing is to follow it.
pub fn write_all<W: Write>(output: &mut W, bytes: &[u8]) -> io::Result<()>
    ensures written { OnOk result (Appends (W.contents output.old) (W.contents output.new) bytes.now) }
    ensures front { AppendsFront (W.contents output.old) (W.contents output.new) (length bytes.now) bytes.now }
{
    let mut left = bytes;
    for _ in 0..u64::MAX {
        if left.is_empty() {
            return Ok(());
        }
        match output.write(left) {
            Ok(0) => return Err(ErrorKind::WriteZero.into()),
            Ok(n) => left = &left[n..],
            Err(error) => passed(error)?,
        }
    }
    Err(ErrorKind::TimedOut.into())
}

/// The first n bytes go out. An error where there are fewer, or a write fails, and nothing is to follow it.
pub fn write_front<W: Write>(output: &mut W, bytes: &[u8], n: usize) -> io::Result<()>
    ensures within { OnOk result (n ≤ length bytes.now) }
    ensures written { OnOk result (Appends (W.contents output.old) (W.contents output.new) (take n bytes.now)) }
    ensures front { AppendsFront (W.contents output.old) (W.contents output.new) n bytes.now }
{
    match bytes.get(..n) {
        Some(front) => write_all(output, front),
        None => Err(ErrorKind::InvalidInput.into()),
    }
}
