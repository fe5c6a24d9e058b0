// The records that reach the reader: the shard, the settings and the reads of all ranges.
ghost use Rattle.std.specs.Prelude.{◌≡◌, [], ◌∷◌, ◌++◌, take};
ghost use Rattle.refusals.specs.Refusals.{number};
ghost use Rattle.rows.specs.Rows.{whole_rows};
ghost use Rattle.text.specs.Shown.{show};
ghost use Rattle.lines.specs.Lines.{free_line, entry_lines, range_lines};
ghost use Rattle.externals_reader.specs.Answers.{reader_done_of};
ghost use Rattle.externals_reader.specs.Calls.{read_all_call};
ghost use Rattle.session_rules.specs.Said.{printed, after_or_bad};
ghost use Rattle.session_rules.specs.Steps.{no_state, no_reader, shard_done, settings_done, read_text, done_reader, read_left, whole, reader_whole};
ghost use Rattle.range_rules.specs.Rules.{entry_len};
ghost use Rattle.session_state.specs.Dos.{do_byte};
ghost use Rattle.session_state.specs.declared.calls.Do.TheVariants.{Read};

use crate::Stepped;
use ext_types::{ChainTime, NO_KEY};
use externals_reader::ReadIntoBuffers;
use range_reader::Lent;
use range_rules::NO_RANGE;
use reader_rules::{
    ExternalsPartitionReaderState, ExternalsReader, ExternalsReaderState, GetNextMessageGroupMode,
};
use refusals::Refusal;
use session_rules::Session;
use session_state::Do;

// No range and no partition; every number is 0.
fn no_state() -> ExternalsReaderState
    ensures { result ≡ no_state }
{
    let partition = ExternalsPartitionReaderState {
        processed_to: NO_KEY,
        curr_processed_offset: 0,
        present: false,
    };
    ExternalsReaderState {
        ranges: [NO_RANGE; 16],
        len: 0,
        by_partitions: [partition; 8],
        last_read_to_anchor_chain_time: None,
    }
}

// The shard and the settings of an empty payload.
#[tactic(auto, unfolding(session_rules::specs::Steps::no_reader))]
pub fn no_reader() -> ExternalsReader
    ensures { result ≡ no_reader }
{
    ExternalsReader {
        for_shard_id: records::shard_of(b""),
        block_seqno: 0,
        next_chain_time: ChainTime(0),
        msgs_exec_params: records::params_of(b""),
        buffer_limits_by_partitions: records::limits_of(b""),
        reader_state: no_state(),
        all_ranges_fully_read: false,
    }
}

// Question 2.
#[tactic(auto, using(refusals::proofs::Laws::handed_on), unfolding(session_rules::specs::Steps::shard_done))]
pub fn with_shard(reader: ExternalsReader, p: &[u8]) -> Result<ExternalsReader, Refusal>
    ensures { (number result ≡ (shard_done reader p.now).number)
        × ((reader_done_of reader result).reader ≡ done_reader reader (shard_done reader p.now)) }
{
    let shard = records::shard_of(p);
    shard_ident::check_shard(shard)?;
    Ok(ExternalsReader {
        for_shard_id: shard,
        ..reader
    })
}

// `new` makes the reader, without ranges. Bytes: next chain time 8, timeout 4, block seqno 4, open-ranges limit 1,
// new waiting 1, eight limits of 2.
#[tactic(auto, using(crate::proofs::Laws::done_as), unfolding(session_rules::specs::Steps::settings_done))]
pub fn with_settings(reader: ExternalsReader, p: &[u8]) -> Result<ExternalsReader, Refusal>
    ensures { (number result ≡ (settings_done reader p.now).number)
        × ((reader_done_of reader result).reader ≡ done_reader reader (settings_done reader p.now)) }
{
    externals_reader::new(
        reader.for_shard_id,
        rows::num_at(p, 12),
        ChainTime(rows::num_at(p, 0)),
        records::params_of(p),
        records::limits_in(p),
        no_state(),
    )
}

// The session after the shard or the settings: refused, or with the new reader.
// The match as in `session_state::route`: no plainer as one function, for each arm is one expression.
#[tactic(auto, using(text::proofs::Laws::show_nothing), unfolding(session_rules::specs::Said::after_or_bad))]
pub fn put_in(
    text: &mut [u8],
    session: Session,
    reader: ExternalsReader,
    done: Result<ExternalsReader, Refusal>,
) -> Stepped
    ensures { (record { session = result.session; bytes = text.new } ≡ printed (after_or_bad session session (number done)) text.old)
        × (result.reader ≡ (reader_done_of reader done).reader) }
{
    match done {
        Ok(reader) => Stepped { session, reader },
        Err(refusal) => Stepped {
            session: session_state::bad(text, session, refusal.into()),
            reader,
        },
    }
}

// The entries that were written and the ranges.
#[tactic(auto, using(crate::proofs::Laws::show_both, std::proofs::lemmas::List::take_min))]
fn put_entries(
    text: &mut [u8],
    at: usize,
    entries: &[u8],
    used: usize,
    state: ExternalsReaderState,
) -> usize
    ensures { record { at = result; bytes = text.new } ≡ show (entry_lines (whole_rows entry_len (take used entries.now)) ++ range_lines (take state.len state.ranges)) (record { at = at; bytes = text.old }) }
{
    let written = &entries[..used.min(entries.len())];
    let to = lines::put_entries(&mut *text, at, written);
    lines::put_ranges(text, to, state)
}

// What a read that was done answered.
#[tactic(auto, using(crate::proofs::Laws::show_both))]
fn put_answer(text: &mut [u8], at: usize, entries: &[u8], answer: ReadIntoBuffers) -> usize
    ensures { record { at = result; bytes = text.new }
        ≡ show (free_line answer.free ++ (entry_lines (whole_rows entry_len (take answer.used entries.now)) ++ range_lines (take answer.reader.reader_state.len answer.reader.reader_state.ranges))) (record { at = at; bytes = text.old }) }
{
    let to = lines::put_free(&mut *text, at, answer.free);
    put_entries(text, to, entries, answer.used, answer.reader.reader_state)
}

// The read of all ranges, on the routes that are listed: the call's line, then where it was done what it read.
fn read(
    lent: Lent<'_>,
    entries: &mut [u8],
    text: &mut [u8],
    session: Session,
    reader: ExternalsReader,
    mode: GetNextMessageGroupMode,
) -> Stepped
    ensures { record { session = result.session; reader = result.reader; entries = entries.new; text = text.new }
        ≡ read_left session (read_all_call lent.entry.tables.now lent.entry.area.now session.transaction lent.entry.routes.now reader mode entries.old) text.old }
{
    let t = session.transaction;
    let done = externals_reader::read_into_buffers(lent, t, reader, mode, &mut *entries);
    let to = Do::Read(mode).put(&mut *text, session.at, refusals::number(done));
    match done {
        Ok(answer) => Stepped {
            session: Session {
                at: put_answer(text, to, &*entries, answer),
                transaction: answer.state,
                ..session
            },
            reader: answer.reader,
        },
        Err(_) => Stepped {
            session: Session { at: to, ..session },
            reader,
        },
    }
}

// The read on the routes that are listed; where fewer bytes are lent it is refused by 3.
#[tactic(auto, using(crate::proofs::Laws::read_step, crate::proofs::Laws::routes_missing))]
pub fn read_listed(
    lent: Lent<'_>,
    entries: &mut [u8],
    text: &mut [u8],
    session: Session,
    reader: ExternalsReader,
    mode: GetNextMessageGroupMode,
) -> Stepped
    ensures { whole result.session result.reader lent.entry.tables.now lent.entry.area.now lent.entry.routes.now entries.new text.new
        ≡ reader_whole 5 (do_byte (Read mode) ∷ []) (whole session reader lent.entry.tables.now lent.entry.area.now lent.entry.routes.now entries.old text.old) }
{
    match lent.routes.get(..session.routes_len) {
        Some(routes) => {
            let listed = Lent { routes, ..lent };
            read(listed, entries, text, session, reader, mode)
        }
        None => Stepped {
            session: session_state::bad(text, session, Refusal::RoutesUnsound.into()),
            reader,
        },
    }
}
