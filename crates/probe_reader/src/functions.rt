// The reader's calls of a function record: which 1, partition 1, flag 1.
ghost use Rattle.text.specs.Shown.{Puts};

use anchors_cache::AnchorsCacheTransaction;
use reader_rules::ExternalsReader;
use refusals::Refusal;

// The reader after a call, and the place behind the text.
#[derive(Clone, Copy)]
pub struct Called {
    pub reader: ExternalsReader,
    pub at: usize,
}

// The calls' names, as a record numbers them, from 1. They stand apart from the calls, since a function with both
// would have more than 40 lines (no plainer). A call is known by its number, here and in `call`: an enum would list
// them all twice more, by variants and by their numbers (no plainer).
const NAMES: [&str; 22] = [
    "finalize",
    "open_ranges_limit_reached",
    "has_non_zero_processed_offset",
    "last_range_offset_reached",
    "last_range_offsets_reached_in_all_partitions",
    "count_messages_in_buffers_by_partitions",
    "has_messages_in_buffers",
    "has_not_fully_read_ranges",
    "all_ranges_read_and_collected",
    "check_all_ranges_read_and_collected",
    "all_read_externals_collected",
    "has_pending_externals",
    "get_last_range_state_offsets_by_partitions",
    "retain_only_last_range_state",
    "set_from_to_current_position_in_last_range_state",
    "increment_curr_processed_offset",
    "drop_processing_offset",
    "set_skip_processed_offset_to_current",
    "set_processed_to_current_position",
    "reset_read_state",
    "drop_last_read_to_anchor_chain_time",
    "get_partition_ids",
];

// The greatest number of a call.
pub const FUNCTIONS: u8 = NAMES.len() as u8;

fn name_of(which: u8) -> Option<&'static str> {
    NAMES.get(usize::from(which.checked_sub(1)?)).copied()
}

// What a call answers: the reader that it leaves, yes or no, or what it has for each partition.
#[derive(Clone, Copy)]
enum Answer {
    Left(Result<ExternalsReader, Refusal>),
    Flag(Result<bool, Refusal>),
    Values(Result<[Option<u32>; 8], Refusal>),
    Ids(Result<[bool; 8], Refusal>),
}

// The call with this number, in the order of their names; none where no call has it.
fn call(
    which: u8,
    tables: &[u8],
    t: AnchorsCacheTransaction,
    reader: ExternalsReader,
    par_id: u8,
    flag: bool,
) -> Option<Answer> {
    Some(match which {
        1 => Answer::Left(reader_offsets::finalize(reader)),
        2 => Answer::Flag(reader_offsets::open_ranges_limit_reached(reader)),
        3 => Answer::Flag(reader_offsets::has_non_zero_processed_offset(reader)),
        4 => Answer::Flag(reader_offsets::last_range_offset_reached(reader, par_id)),
        5 => Answer::Flag(reader_offsets::last_range_offsets_reached_in_all_partitions(reader)),
        6 => Answer::Values(reader_offsets::count_messages_in_buffers_by_partitions(reader)),
        7 => Answer::Flag(reader_offsets::has_messages_in_buffers(reader)),
        8 => Answer::Flag(reader_offsets::has_not_fully_read_ranges(reader)),
        9 => Answer::Flag(reader_offsets::all_ranges_read_and_collected(reader)),
        10 => Answer::Flag(reader_offsets::check_all_ranges_read_and_collected(reader)),
        11 => Answer::Flag(reader_offsets::all_read_externals_collected(reader)),
        12 => Answer::Flag(reader_offsets::has_pending_externals(tables, t, reader)),
        13 => Answer::Values(reader_offsets::get_last_range_state_offsets_by_partitions(reader)),
        14 => Answer::Left(reader_offsets::retain_only_last_range_state(reader)),
        15 => Answer::Left(
            reader_offsets::set_from_to_current_position_in_last_range_state(reader),
        ),
        16 => Answer::Left(reader_offsets::increment_curr_processed_offset(reader, par_id)),
        17 => Answer::Left(reader_offsets::drop_processing_offset(reader, par_id, flag)),
        18 => Answer::Left(reader_offsets::set_skip_processed_offset_to_current(reader, par_id)),
        19 => Answer::Left(reader_offsets::set_processed_to_current_position(reader, par_id)),
        20 => Answer::Left(externals_reader::reset_read_state(reader)),
        21 => Answer::Left(externals_reader::drop_last_read_to_anchor_chain_time(reader)),
        22 => Answer::Ids(externals_reader::get_partition_ids(reader)),
        _ => return None,
    })
}

// The name of a call that was done, and its number, 0.
fn put_done(out: &mut [u8], at: usize, name: &str) -> usize
    ensures { Puts (record { at = at; bytes = out.old }) (record { at = result; bytes = out.new }) }
{
    let named = text::put(&mut *out, at, name.as_bytes());
    text::put_number(out, named, 0)
}

// A partition with its value, if it has one; nothing where it is not there.
#[tactic(auto, using(text::proofs::Laws::puts_nothing))]
fn put_item<const N: usize>(out: &mut [u8], at: usize, i: usize, item: Option<[u64; N]>) -> usize
    ensures { Puts (record { at = at; bytes = out.old }) (record { at = result; bytes = out.new }) }
{
    match item {
        Some(value) => text::put_joined(out, at, i as u64, &value),
        None => at,
    }
}

// The partitions that are present, each with its value.
#[tactic(auto, using(text::proofs::Laws::puts_nothing))]
fn put_items<const N: usize>(
    out: &mut [u8],
    at: usize,
    name: &str,
    answer: Result<[Option<[u64; N]>; 8], Refusal>,
) -> usize
    ensures { Puts (record { at = at; bytes = out.old }) (record { at = result; bytes = out.new }) }
{
    let items = match answer {
        Ok(items) => items,
        Err(refusal) => return text::put_call(out, at, name.as_bytes(), u8::from(refusal)),
    };
    let mut to = put_done(&mut *out, at, name);
    for (i, item) in items.iter().enumerate() {
        to = put_item(&mut *out, to, i, *item);
    }
    text::put(out, to, b"\n")
}

// Only a done call tells its answer.
fn put_flag(out: &mut [u8], at: usize, name: &str, answer: Result<bool, Refusal>) -> usize
    ensures { Puts (record { at = at; bytes = out.old }) (record { at = result; bytes = out.new }) }
{
    match answer {
        Ok(flag) => text::put_line(out, at, name.as_bytes(), &[0, u64::from(flag)]),
        Err(refusal) => text::put_call(out, at, name.as_bytes(), u8::from(refusal)),
    }
}

fn put_answer(out: &mut [u8], at: usize, name: &str, answer: Answer) -> usize
    ensures { Puts (record { at = at; bytes = out.old }) (record { at = result; bytes = out.new }) }
{
    match answer {
        Answer::Left(left) => text::put_call(out, at, name.as_bytes(), refusals::number(left)),
        Answer::Flag(flag) => put_flag(out, at, name, flag),
        Answer::Values(values) => {
            let items = values.map(|all| all.map(|value| value.map(|value| [u64::from(value)])));
            put_items(out, at, name, items)
        }
        Answer::Ids(present) => {
            let items = present.map(|all| all.map(|is_there| is_there.then_some([])));
            put_items(out, at, name, items)
        }
    }
}

// The call that a payload names, on the cache and the reader; one that is not known is none, and a refused one leaves
// the reader as it was.
#[tactic(auto, using(text::proofs::Laws::puts_nothing))]
pub fn function(
    out: &mut [u8],
    at: usize,
    tables: &[u8],
    t: AnchorsCacheTransaction,
    reader: ExternalsReader,
    p: &[u8],
) -> Called
    ensures { Puts (record { at = at; bytes = out.old }) (record { at = result.at; bytes = out.new }) }
{
    let which = rows::byte_at(p, 0);
    let flag = rows::byte_at(p, 2) == 1;
    let answer = call(which, tables, t, reader, rows::byte_at(p, 1), flag);
    let (Some(name), Some(answer)) = (name_of(which), answer) else {
        return Called { reader, at };
    };
    let at = put_answer(out, at, name, answer);
    let reader = match answer {
        Answer::Left(left) => left.unwrap_or(reader),
        _ => reader,
    };
    Called { reader, at }
}
