// What the list draws. No sum of ids or chain times wraps in the list, so the wrapping sum is the sum.
ghost use Rattle.std.specs.Prelude.{◌<◌, ◌≤◌};

use cache_rules::AUTHOR_BYTES;
use rows::MESSAGE_LEN;

#[derive(Clone, Copy, Debug, PartialEq, Eq)]
pub enum Kind {
    Small,
    Large,
    NoneOurs,
}

#[derive(Clone, Copy, Debug, PartialEq, Eq)]
pub enum Step {
    Add,
    Pop,
    Trim,
    Open,
    Commit,
    Rollback,
    Close,
}

#[derive(Clone, Copy, Debug)]
pub struct Anchor {
    pub id: u32,
    pub ct: u64,
    pub ours: u32,
    pub count: u32,
}

// The seed, and the next anchor's id and chain time.
#[derive(Clone, Copy, Debug)]
pub struct Draw {
    seed: u32,
    next_id: u32,
    next_ct: u64,
}

impl Draw {
    pub fn new() -> Self {
        Draw {
            seed: 1,
            next_id: 1,
            next_ct: 1000,
        }
    }

    fn rnd(&mut self, n: u32) -> u32
        requires { 0 < n }
        ensures { result < n }
    {
        let s = (u64::from(self.seed) * 1_103_515_245 + 12_345) % 2_147_483_648;
        self.seed = s as u32;
        (s / 65_536) as u32 % n
    }

    fn rnd_time(&mut self, n: u32) -> u64
        requires { 0 < n }
    {
        50 * u64::from(self.rnd(n))
    }

    pub fn step(&mut self) -> Step {
        match self.rnd(16) {
            0..=5 => Step::Add,
            6..=8 => Step::Pop,
            9 => Step::Trim,
            10 => Step::Open,
            11 | 12 => Step::Commit,
            13 => Step::Rollback,
            _ => Step::Close,
        }
    }

    // How many anchors a step adds; with a transaction open nothing is drawn.
    pub fn adds(&mut self, kind: Kind, active: bool) -> u32 {
        match kind {
            _ if active => 1,
            Kind::NoneOurs => 1 + self.rnd(40),
            Kind::Small | Kind::Large => 1 + self.rnd(20),
        }
    }

    pub fn pops(&mut self) -> u32 {
        1 + self.rnd(8)
    }

    // How far before the last chain time a trim goes.
    pub fn back(&mut self) -> u64 {
        self.rnd_time(40)
    }

    fn count(&mut self, kind: Kind) -> u32
        ensures { result < 120 }
    {
        match kind {
            Kind::Large => self.rnd(120),
            Kind::Small | Kind::NoneOurs => self.rnd(12),
        }
    }

    // Ours of count messages; without messages nothing is drawn.
    fn ours(&mut self, kind: Kind, count: u32) -> u32
        requires { count < 120 }
    {
        if count == 0 {
            return 0;
        }
        let ours = self.rnd(count + 1);
        if kind == Kind::NoneOurs { 0 } else { ours }
    }

    // Now and then ours, the id or the chain time is out of the ordinary.
    fn varied(&mut self, anchor: Anchor) -> Anchor {
        let Anchor { id, ct, count, .. } = anchor;
        match self.rnd(32) {
            0 => Anchor {
                ours: count.wrapping_add(1),
                ..anchor
            },
            1 => Anchor {
                id: id.saturating_sub(1 + self.rnd(4)),
                ..anchor
            },
            2 => Anchor {
                ct: ct.wrapping_add(self.rnd_time(60)),
                ..anchor
            },
            _ => anchor,
        }
    }

    // The next id and chain time are drawn before the rest of an anchor.
    pub fn anchor(&mut self, kind: Kind) -> Anchor {
        let (id, ct) = (self.next_id, self.next_ct);
        self.next_id = id.wrapping_add(1 + self.rnd(3));
        self.next_ct = ct.wrapping_add(self.rnd_time(10));
        let count = self.count(kind);
        let ours = self.ours(kind, count);
        self.varied(Anchor {
            id,
            ct,
            ours,
            count,
        })
    }
}

// Each byte is one more than the one before it, and 0 behind 255.
fn count_up(bytes: &mut [u8], first: u8) {
    for (i, place) in bytes.iter_mut().enumerate() {
        *place = first.wrapping_add((i % 256) as u8);
    }
}

fn low_byte(id: u32) -> u8 {
    (id % 256) as u8
}

// Byte i is (id + i) % 256.
pub fn author(id: u32) -> [u8; AUTHOR_BYTES] {
    let mut author = [0; AUTHOR_BYTES];
    count_up(&mut author, low_byte(id));
    author
}

// 120 messages, more than any anchor of the list has.
const DRAWN_BYTES: usize = 120 * MESSAGE_LEN;

// Byte j of message m is (id + 7 * m + j) % 256.
pub fn messages(id: u32) -> [u8; DRAWN_BYTES] {
    let mut all = [0; DRAWN_BYTES];
    let mut first = low_byte(id);
    for message in all.chunks_exact_mut(MESSAGE_LEN) {
        count_up(message, first);
        first = first.wrapping_add(7);
    }
    all
}
