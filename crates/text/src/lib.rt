// Text in lent bytes: byte strings and decimal numbers, from a place on, as far as the bytes reach.
// Each function answers the place behind its text. The bytes and the place stand side by side (no plainer): a struct
// that holds &mut needs a ghost_name clause in each function.
#![tactic(auto)]

ghost use Rattle.std.specs.Prelude.{[], ◌∷◌};
ghost use Rattle.text.specs.Shown.{Shows, decimal, marked, spaced, joined, line};

const NEWLINE: [u8; 1] = *b"\n";

// A text; what does not fit is left out.
pub fn put(out: &mut [u8], at: usize, text: &[u8]) -> usize
    ensures { Shows text.now at out.old result out.new }
{
    let room = out.len().saturating_sub(at);
    let fitting = &text[..room.min(text.len())];
    rows::copy_in(out, at, fitting);
    at + fitting.len()
}

// A number in decimal.
#[tactic(auto, using(crate::proofs::Decimals::digits_decimal))]
pub fn put_decimal(out: &mut [u8], at: usize, n: u64) -> usize
    ensures { Shows (decimal n) at out.old result out.new }
{
    let mut digits = [0u8; 20];
    let k = io::decimal(n, &mut digits);
    put(out, at, &digits[..k])
}

// A number behind a mark.
#[tactic(auto, using(crate::proofs::Laws::show_marked))]
fn put_marked(out: &mut [u8], at: usize, mark: u8, n: u64) -> usize
    ensures { Shows (marked mark (n ∷ [])) at out.old result out.new }
{
    let to = put(&mut *out, at, &[mark]);
    put_decimal(out, to, n)
}

// A number behind a space.
pub fn put_number(out: &mut [u8], at: usize, n: u64) -> usize
    ensures { Shows (spaced (n ∷ [])) at out.old result out.new }
{
    put_marked(out, at, b' ', n)
}

// Numbers, each behind a mark.
#[tactic(auto, using(crate::proofs::Laws::numbers_turn, crate::proofs::Laws::numbers_end))]
pub fn put_numbers(out: &mut [u8], at: usize, mark: u8, numbers: &[u64]) -> usize
    ensures { Shows (marked mark numbers.now) at out.old result out.new }
{
    let mut to = at;
    for n in numbers {
        to = put_marked(&mut *out, to, mark, *n);
    }
    to
}

// A number behind a space, then numbers, each behind a colon.
#[tactic(auto, using(crate::proofs::Laws::show_joined))]
pub fn put_joined(out: &mut [u8], at: usize, first: u64, rest: &[u64]) -> usize
    ensures { Shows (joined first rest.now) at out.old result out.new }
{
    let to = put_number(&mut *out, at, first);
    put_numbers(out, to, b':', rest)
}

// A name and numbers, each behind a space.
#[tactic(auto, using(crate::proofs::Laws::show_line))]
pub fn put_line(out: &mut [u8], at: usize, name: &[u8], numbers: &[u64]) -> usize
    ensures { Shows (line name.now numbers.now) at out.old result out.new }
{
    let named = put(&mut *out, at, name);
    let to = put_numbers(&mut *out, named, b' ', numbers);
    put(out, to, &NEWLINE)
}

// A call's name and its number, 0 or a refusal's: here it becomes text (no plainer as a `Result`).
pub fn put_call(out: &mut [u8], at: usize, name: &[u8], number: u8) -> usize
    ensures { Shows (line name.now (number ∷ [])) at out.old result out.new }
{
    put_line(out, at, name, &[u64::from(number)])
}
