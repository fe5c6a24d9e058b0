// The calls of the cache, and their lines.
// Tables and area stand side by side, as the cache's own calls take them: no plainer, a struct for both would be taken
// apart again in each call.
ghost use Rattle.std.specs.Prelude.{◌≡◌, [], ◌∷◌, ◌+◌, ◌*◌, length};
ghost use Rattle.text.specs.Shown.{show, line};
ghost use Rattle.refusals.specs.Refusals.{number_of};
ghost use Rattle.anchors_cache.specs.Answers.{done_of};
ghost use Rattle.session_rules.specs.Said.{anchor_taken, tables_after, area_after, pop_done, do_name, long_number};
ghost use Rattle.session_rules.specs.Said.{called as spec_called};
ghost use Rattle.session_state.specs.Dos.{do_byte, do_of};

use anchors_cache::AnchorsCacheTransaction;
use reader_rules::GetNextMessageGroupMode;
use records::{ANCHOR_HEAD_BYTES, KIND_BYTES, Kind};
use refusals::Refusal;

// What a do record asks for; the read is that of all ranges.
#[derive(Clone, Copy, Debug, PartialEq, Eq)]
pub enum Do {
    Open,
    Pop,
    Read(GetNextMessageGroupMode),
    Commit,
    Rollback,
    Close,
}

// By its byte; one that is none of these closes.
impl From<u8> for Do {
    ghost from_gives = { λ d call. call ≡ do_of d };

    #[tactic(auto, unfolding(crate::specs::Dos::do_of))]
    fn from(byte: u8) -> Do {
        match byte {
            1 => Do::Open,
            2 => Do::Pop,
            3 => Do::Read(GetNextMessageGroupMode::Continue),
            4 => Do::Read(GetNextMessageGroupMode::Refill),
            5 => Do::Commit,
            6 => Do::Rollback,
            _ => Do::Close,
        }
    }
}

impl Do {
    // As its line has it.
    #[tactic(auto, unfolding(session_rules::specs::Said::do_name, session_rules::specs::Said::is_read))]
    fn name(self) -> &'static [u8]
        ensures { result.now ≡ do_name (do_byte self) }
    {
        match self {
            Do::Open => b"open",
            Do::Pop => b"pop",
            Do::Read(_) => b"read",
            Do::Commit => b"commit",
            Do::Rollback => b"rollback",
            Do::Close => b"close",
        }
    }

    // The call's name and its number. A number: here a refusal becomes text.
    pub fn put(self, text: &mut [u8], at: usize, number: u8) -> usize
        ensures { record { at = result; bytes = text.new } ≡ show (line (do_name (do_byte self)) (number ∷ [])) (record { at = at; bytes = text.old }) }
    {
        text::put_call(text, at, self.name(), number)
    }
}

// An anchor's payload: id, chain time and author, ours 4 at 44, the count, then the messages.
pub fn add(
    tables: &mut [u8],
    area: &mut [u8],
    t: AnchorsCacheTransaction,
    p: &[u8],
) -> Result<AnchorsCacheTransaction, Refusal>
    ensures { (done_of t result ≡ anchor_taken (length area.old) tables.old t p.now)
        × (tables.new ≡ tables_after (length area.old) tables.old t p.now)
        × (area.new ≡ area_after area.old tables.old t p.now) }
{
    let messages = p.get(ANCHOR_HEAD_BYTES..).unwrap_or(&[]);
    anchors_cache::add(
        tables,
        area,
        t,
        records::anchor_of(p),
        rows::num_at(p, 44),
        messages,
    )
}

fn pop(
    tables: &[u8],
    area: &[u8],
    t: AnchorsCacheTransaction,
) -> Result<AnchorsCacheTransaction, Refusal>
    ensures { done_of t result ≡ pop_done (length area.now) tables.now t }
{
    Ok(anchors_cache::pop_front(tables, area, t)?.state)
}

// A call of the cache; one that is none closes.
#[tactic(auto, unfolding(session_rules::specs::Said::called))]
pub fn called(
    tables: &[u8],
    area: &[u8],
    t: AnchorsCacheTransaction,
    call: Do,
) -> Result<AnchorsCacheTransaction, Refusal>
    ensures { done_of t result ≡ spec_called (length area.now) tables.now t (do_byte call) }
{
    match call {
        Do::Open => anchors_cache::open(tables, area, t),
        Do::Pop => pop(tables, area, t),
        Do::Commit => anchors_cache::commit(tables, area, t),
        Do::Rollback => anchors_cache::rollback(tables, area, t),
        Do::Close | Do::Read(_) => anchors_cache::close(tables, area, t),
    }
}

// Why a record is refused that is too long: malformed unless it is an anchor of its stated length; else by questions 1
// and 5, then for too many messages.
#[tactic(auto, using(messages_buffer::proofs::Laws::first_yes, messages_buffer::proofs::Laws::first_no_lem, std::proofs::lemmas::Bool::Decides::nat_tests), unfolding(session_rules::specs::Said::long_number))]
pub fn long_refusal(
    tables: &[u8],
    area: &[u8],
    number: u64,
    t: AnchorsCacheTransaction,
    head: &[u8],
    n: usize,
) -> Refusal
    ensures { number_of result ≡ long_number (length area.now) tables.now number t head.now n }
{
    if number < 3
        || rows::num_at::<u16>(head, 0) != u16::from(Kind::Anchor)
        || n != KIND_BYTES + records::anchor_bytes(rows::num_at(head, 50))
    {
        return Refusal::Malformed;
    }
    let unsound = anchors_cache::check_cache(tables, area, t).err();
    unsound.unwrap_or(Refusal::MessagesUnsound)
}
