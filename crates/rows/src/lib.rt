// Lent bytes as a table: numbers of two, four and eight bytes, the lowest first, moves of parts, and rows of one width.
// Every public function is total: what would be read past the end is 0, what would be written past it is not written.
#![tactic(auto)]

ghost use Rattle.std.specs.Prelude.{ℕ, ◌≡◌, ◌+◌, ◌*◌, ◌<◌, ◌≤◌, ◌-◌, leb, length, get_or, IsTrue};
ghost use Rattle.std.proofs.lemmas.List.Edits.{sets};
ghost use Rattle.rows.specs.Rows.{part, le, num_at, written, moved_down, fits, append_answer, appended_if_fits, placed_at, starts_with, whole_rows, find_row};

// A message: workchain 1, account 32 bytes.
pub const MESSAGE_LEN: usize = 33;

// Where the new bytes stand: behind the old ones; behind them after they went down to the table's start; nowhere, and
// nothing was written. No plainer as `Option` or `Result`: `NoRoom` stands beside two places.
#[derive(Clone, Copy, Debug, PartialEq, Eq)]
pub enum Appended {
    Behind,
    Moved,
    NoRoom,
}

impl Appended {
    // Where the table's bytes begin after the call, if they began at `first`.
    pub fn placed(self, first: usize) -> usize
        ensures { result ≡ placed_at self first }
    {
        match self {
            Appended::Moved => 0,
            Appended::Behind | Appended::NoRoom => first,
        }
    }
}

// A number of a few bytes, the lowest first.
pub trait LittleEndian: Sized {
    ghost width: { ℕ };

    ghost number: { Self → ℕ };

    // The number that the first bytes stand for; of too few bytes it is 0.
    fn of_front(bytes: &[u8]) -> Self
        ensures { number result ≡ num_at width 0 bytes.now };

    // The number's bytes, from a place on.
    fn put_at(self, out: &mut [u8], at: usize)
        ensures { out.new ≡ written at (le width (number self)) out.old };
}

impl LittleEndian for u16 {
    ghost width = { 2 };

    ghost number = { λ n. n };

    fn of_front(bytes: &[u8]) -> u16 {
        bytes.first_chunk().copied().map_or(0, u16::from_le_bytes)
    }

    #[tactic(auto, using(crate::proofs::Laws::bytes_put))]
    fn put_at(self, out: &mut [u8], at: usize) {
        copy_in(out, at, &self.to_le_bytes());
    }
}

impl LittleEndian for u32 {
    ghost width = { 4 };

    ghost number = { λ n. n };

    fn of_front(bytes: &[u8]) -> u32 {
        bytes.first_chunk().copied().map_or(0, u32::from_le_bytes)
    }

    #[tactic(auto, using(crate::proofs::Laws::bytes_put))]
    fn put_at(self, out: &mut [u8], at: usize) {
        copy_in(out, at, &self.to_le_bytes());
    }
}

impl LittleEndian for u64 {
    ghost width = { 8 };

    ghost number = { λ n. n };

    fn of_front(bytes: &[u8]) -> u64 {
        bytes.first_chunk().copied().map_or(0, u64::from_le_bytes)
    }

    #[tactic(auto, using(crate::proofs::Laws::bytes_put))]
    fn put_at(self, out: &mut [u8], at: usize) {
        copy_in(out, at, &self.to_le_bytes());
    }
}

// The number at a place; one that reaches past the end is 0.
pub fn num_at<N: LittleEndian>(s: &[u8], at: usize) -> N
    ensures { N.number result ≡ num_at N.width at s.now }
{
    N::of_front(s.get(at..).unwrap_or(&[]))
}

// Whether a + b is at most cap, with no sum that could wrap.
pub fn sum_within(a: usize, b: usize, cap: usize) -> bool
    ensures { result ≡ leb (a + b) cap }
{
    b <= cap && a <= cap - b
}

// The last place of n; of none, 0.
pub fn last_place(n: usize) -> usize
    ensures { result ≡ n - 1 }
{
    n.saturating_sub(1)
}

pub fn byte_at(s: &[u8], at: usize) -> u8
    ensures { result ≡ get_or s.now at 0 }
{
    s.get(at).copied().unwrap_or(0)
}

// A number's bytes, from a place on.
pub fn put<N: LittleEndian>(out: &mut [u8], at: usize, n: N)
    ensures { out.new ≡ written at (le N.width (N.number n)) out.old }
{
    n.put_at(out, at);
}

fn put_le_in(out: &mut [u8], at: usize, v: u64, k: usize)
    requires { at + k ≤ length out.old }
    ensures { out.new ≡ sets out.old at (le k v) }
{
    let mut rest = v;
    for i in 0..k {
        out[at + i] = (rest % 256) as u8;
        rest /= 256;
    }
}

// The low k bytes of v, from a place on, for a width that no number's type has.
pub fn put_le(out: &mut [u8], at: usize, v: u64, k: usize)
    ensures { out.new ≡ written at (le k v) out.old }
{
    if sum_within(at, k, out.len()) {
        put_le_in(out, at, v, k);
    }
}

// A loop: with the library's `copy_from_slice` (tried) the archive for C needs `memmove`, which a bare host may lack.
fn copy_in_place(dst: &mut [u8], at: usize, src: &[u8])
    requires { at + length src.now ≤ length dst.old }
    ensures { dst.new ≡ sets dst.old at src.now }
{
    for i in 0..src.len() {
        dst[at + i] = src[i];
    }
}

// All of src, from a place on.
pub fn copy_in(dst: &mut [u8], at: usize, src: &[u8])
    ensures { dst.new ≡ written at src.now dst.old }
{
    if sum_within(at, src.len(), dst.len()) {
        copy_in_place(dst, at, src);
    }
}

fn move_down_in(s: &mut [u8], from: usize, to: usize, n: usize)
    requires { (to ≤ from) × (from + n ≤ length s.old) }
    ensures { s.new ≡ sets s.old to (part from n s.old) }
{
    s.copy_within(from..from + n, to);
}

// n bytes go down from a place to one that is not above it.
#[tactic(auto, unfolding(crate::specs::Rows::moved_down))]
pub fn move_down(s: &mut [u8], from: usize, to: usize, n: usize)
    ensures { s.new ≡ moved_down from to n s.old }
{
    if to <= from && sum_within(from, n, s.len()) {
        move_down_in(s, from, to, n);
    }
}

#[tactic(auto, unfolding(crate::specs::Rows::fits))]
fn has_room(start: usize, from: usize, n: usize, k: usize, cap: usize, len: usize) -> bool
    ensures value { result ≡ fits start from n k cap len }
    ensures holds { IsTrue result → (start + cap ≤ len) × (from + n ≤ cap) × (n + k ≤ cap) }
{
    sum_within(start, cap, len) && sum_within(from, n, cap) && sum_within(n, k, cap)
}

// New bytes behind the n that stand at `from` in a table of cap bytes from start. Where there is no room behind them,
// they go down to its start first.
pub fn append(s: &mut [u8], start: usize, from: usize, n: usize, cap: usize, new: &[u8]) -> Appended
    ensures { (result ≡ append_answer start from n (length new.now) cap (length s.old)) × (s.new ≡ appended_if_fits start from n cap new.now s.old) }
{
    if !has_room(start, from, n, new.len(), cap, s.len()) {
        return Appended::NoRoom;
    }
    if sum_within(from + n, new.len(), cap) {
        copy_in(s, start + from + n, new);
        return Appended::Behind;
    }
    move_down_in(&mut *s, start + from, start, n);
    copy_in(s, start + n, new);
    Appended::Moved
}

// The slice begins with the key's bytes. Tried, slower: the library's `starts_with` takes 14 instructions for a row that
// isn't the key's, this 9.
pub fn starts_with(s: &[u8], key: &[u8]) -> bool
    ensures { result ≡ starts_with key.now s.now }
{
    key.len() <= s.len() && s.iter().zip(key).all(|(x, y)| x == y)
}

// The first of the whole rows of w bytes that begins with the key.
pub fn find_row(bytes: &[u8], w: usize, key: &[u8]) -> Option<usize>
    ensures { result ≡ find_row key.now (whole_rows w bytes.now) }
{
    if w == 0 {
        return None;
    }
    bytes.chunks_exact(w).position(|row| starts_with(row, key))
}
