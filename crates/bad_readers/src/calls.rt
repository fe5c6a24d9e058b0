// Every call of the reader on one state, in the order of the README, and what they answer.
use crate::lent;
use crate::state::Case;
use externals_reader::{check_settings, check_state};
use reader_rules::ExternalsReader;
use reader_rules::GetNextMessageGroupMode::{Continue, Refill};
use refusals::{Refusal, number};
use std::fmt;

// The number of a call; or a refused one changed something, which no `Result` with a refusal says (no plainer).
// bad_states has one of its own: the two programs share no crate but those that they test (no plainer).
#[derive(Clone, Copy, Debug, PartialEq, Eq)]
pub enum Answer {
    Number(u8),
    Changed,
}

impl fmt::Display for Answer {
    fn fmt<W: fmt::Write>(&self, f: &mut fmt::Formatter<W>) -> fmt::Result {
        match self {
            Answer::Number(number) => write!(f, "{number}"),
            Answer::Changed => write!(f, "changed"),
        }
    }
}

fn new(case: Case, reader: ExternalsReader) -> Result<ExternalsReader, Refusal> {
    let ExternalsReader {
        for_shard_id,
        block_seqno,
        next_chain_time,
        msgs_exec_params,
        reader_state,
        ..
    } = reader;
    externals_reader::new(
        for_shard_id,
        block_seqno,
        next_chain_time,
        msgs_exec_params,
        case.limits(),
        reader_state,
    )
}

// Columns 2 to 8.
fn of_reader(case: Case, reader: ExternalsReader) -> [u8; 7] {
    [
        number(check_settings(case.limits(), case.most)),
        number(new(case, reader)),
        number(externals_reader::reset_read_state(reader)),
        number(externals_reader::drop_last_read_to_anchor_chain_time(reader)),
        number(externals_reader::set_buffer_limits_by_partition(reader, case.limits())),
        number(externals_reader::get_partition_ids(reader)),
        number(externals_reader::create_next_externals_range_state(reader)),
    ]
}

// Columns 11 to 17.
fn of_offsets(case: Case, reader: ExternalsReader) -> [u8; 7] {
    [
        number(reader_offsets::finalize(reader)),
        number(reader_offsets::open_ranges_limit_reached(reader)),
        number(reader_offsets::has_non_zero_processed_offset(reader)),
        number(reader_offsets::last_range_offset_reached(reader, case.par_id)),
        number(reader_offsets::last_range_offsets_reached_in_all_partitions(reader)),
        number(reader_offsets::count_messages_in_buffers_by_partitions(reader)),
        number(reader_offsets::has_messages_in_buffers(reader)),
    ]
}

// Columns 18 to 23.
fn of_collected(case: Case, reader: ExternalsReader) -> [u8; 6] {
    [
        number(reader_offsets::has_not_fully_read_ranges(reader)),
        number(reader_offsets::all_ranges_read_and_collected(reader)),
        number(reader_offsets::check_all_ranges_read_and_collected(reader)),
        number(reader_offsets::all_read_externals_collected(reader)),
        number(lent::has_pending(case, reader)),
        number(reader_offsets::get_last_range_state_offsets_by_partitions(reader)),
    ]
}

// Columns 24 to 30.
fn of_changes(case: Case, reader: ExternalsReader) -> [u8; 7] {
    let Case {
        par_id,
        seqno,
        taken,
        ..
    } = case;
    [
        number(reader_offsets::retain_only_last_range_state(reader)),
        number(reader_offsets::set_from_to_current_position_in_last_range_state(reader)),
        number(reader_offsets::increment_curr_processed_offset(reader, par_id)),
        number(reader_offsets::drop_processing_offset(reader, par_id, true)),
        number(reader_offsets::set_skip_processed_offset_to_current(reader, par_id)),
        number(reader_offsets::set_processed_to_current_position(reader, par_id)),
        number(reader_offsets::messages_taken(reader, seqno, par_id, taken)),
    ]
}

fn put_numbers<W: fmt::Write>(f: &mut fmt::Formatter<W>, numbers: &[u8]) -> fmt::Result {
    for number in numbers {
        write!(f, " {number}")?;
    }
    Ok(())
}

// The numbers of the calls, column by column.
impl fmt::Display for Case {
    fn fmt<W: fmt::Write>(&self, f: &mut fmt::Formatter<W>) -> fmt::Result {
        let reader = self.reader();
        write!(f, "{}", number(check_state(reader.reader_state)))?;
        put_numbers(f, &of_reader(*self, reader))?;
        for mode in [Continue, Refill] {
            write!(f, " {}", lent::answer_of_read(*self, mode))?;
        }
        put_numbers(f, &of_offsets(*self, reader))?;
        put_numbers(f, &of_collected(*self, reader))?;
        put_numbers(f, &of_changes(*self, reader))
    }
}
