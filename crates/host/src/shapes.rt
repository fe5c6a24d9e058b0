// What a host holds, against what the calls take and answer: an enum is a mark and what it marks.
// Structs with a number or a mark, and structs beside the core's own: the C interface.
// An array that goes from one struct into another is named between: the borrow checker of the proofs asks for it.
ghost use Rattle.std.specs.Prelude.{◌≡◌};
ghost use Rattle.router.specs.Router.{answer_of};
ghost use Rattle.messages_buffer.specs.Fullness.{answer_of as fullness};
ghost use Rattle.anchors_cache.specs.Answers.{anchor_answer_of, info_answer_of, flag_answer_of};
ghost use Rattle.anchors_cache.specs.declared.AnchorsCacheTransaction.{AnchorsCacheTransaction};
ghost use Rattle.range_rules.specs.declared.ExternalsRangeReaderState.{ExternalsRangeReaderState as Range};
ghost use Rattle.range_reader.specs.Calls.{read_answer_of};
ghost use Rattle.reader_rules.specs.declared.ExternalsReader.{ExternalsReader as CoreReader};
ghost use Rattle.externals_reader.specs.Answers.{partition_ids_of, next_range_of, read_all_answer_of};
ghost use Rattle.reader_offsets.specs.Answers.{value_of, is_there, by_partitions_of};
ghost use Rattle.host.specs.Shapes.{group_mode, range_mode, settings_of, last_time, saved_time, free_of, state_of, reader_of, held_state, held_reader, anchor_answer, info_answer};
ghost use Rattle.host.specs.Calls.{flag_shown, partition_shown, fill_shown, partition_ids_shown, next_range_shown, by_partitions_shown, all_answer, range_answer};

use crate::{
    AllAnswer, AnchorShown, ByPartitions, FillState, FlagAnswer, Free, InfoShown, NextRange,
    PartitionIds, PartitionShown, RangeAnswer, RangeSettings, Reader, ReaderState, SavedTime,
};
use anchors_cache::{AnchorInfo, Authored, CachedAnchor, ZERO_ANCHOR, ZERO_INFO};
use cache_rules::AUTHOR_BYTES;
use ext_types::ChainTime;
use externals_reader::ReadIntoBuffers;
use range_reader::ReadExternals;
use range_rules::{ExternalsRangeReaderState, NO_COUNTS, NO_RANGE, ReadNextExternalsMode};
use reader_rules::{ExternalsReader, ExternalsReaderState, GetNextMessageGroupMode};
use refusals::Refusal;

// What is shown where nothing is found.
const NO_ANCHOR: AnchorShown = AnchorShown {
    number: 0,
    found: false,
    anchor: ZERO_ANCHOR,
    author: [0; AUTHOR_BYTES],
};

const NO_INFO: InfoShown = InfoShown {
    number: 0,
    found: false,
    info: ZERO_INFO,
    author: [0; AUTHOR_BYTES],
};

// ---- modes
pub(crate) fn group_mode(refill: bool) -> GetNextMessageGroupMode
    ensures { result ≡ group_mode refill }
{
    if refill {
        GetNextMessageGroupMode::Refill
    } else {
        GetNextMessageGroupMode::Continue
    }
}

fn range_mode(to_previous: bool) -> ReadNextExternalsMode
    ensures { result ≡ range_mode to_previous }
{
    if to_previous {
        ReadNextExternalsMode::ToPreviuosReadTo
    } else {
        ReadNextExternalsMode::ToTheEnd
    }
}

// What the core is told of a read of one range.
impl From<RangeSettings> for range_reader::RangeSettings {
    ghost from_gives = { λ s r. r ≡ settings_of s };

    fn from(s: RangeSettings) -> range_reader::RangeSettings {
        let RangeSettings {
            shard,
            limits,
            processed,
            timeout,
            to_previous,
        } = s;
        range_reader::RangeSettings {
            shard,
            limits,
            processed,
            timeout,
            mode: range_mode(to_previous),
        }
    }
}

// ---- values that may be missing
impl From<SavedTime> for Option<ChainTime> {
    ghost from_gives = { λ s t. t ≡ last_time s.present s.time };

    fn from(saved: SavedTime) -> Option<ChainTime> {
        saved.present.then_some(saved.time)
    }
}

// Where there is none, the time beside the mark is `unset`.
fn saved_time(unset: ChainTime, last: Option<ChainTime>) -> SavedTime
    ensures { result ≡ saved_time unset last }
{
    SavedTime {
        present: last.is_some(),
        time: last.unwrap_or(unset),
    }
}

impl From<Option<u16>> for Free {
    ghost from_gives = { λ o f. f ≡ free_of o };

    fn from(free: Option<u16>) -> Free {
        Free {
            present: free.is_some(),
            places: free.unwrap_or(0),
        }
    }
}

// ---- the reader
impl From<ReaderState> for ExternalsReaderState {
    ghost from_gives = { λ s r. r ≡ state_of s };

    fn from(s: ReaderState) -> ExternalsReaderState {
        let ReaderState {
            ranges,
            len,
            by_partitions,
            last_read_to_anchor_chain_time,
        } = s;
        ExternalsReaderState {
            ranges,
            len,
            by_partitions,
            last_read_to_anchor_chain_time: last_read_to_anchor_chain_time.into(),
        }
    }
}

impl From<Reader> for ExternalsReader {
    ghost from_gives = { λ r s. s ≡ reader_of r };

    #[tactic(auto, unfolding(crate::specs::Shapes::reader_of))]
    fn from(r: Reader) -> ExternalsReader {
        let buffer_limits_by_partitions = r.buffer_limits_by_partitions;
        ExternalsReader {
            for_shard_id: r.for_shard_id,
            block_seqno: r.block_seqno,
            next_chain_time: r.next_chain_time,
            msgs_exec_params: r.msgs_exec_params,
            buffer_limits_by_partitions,
            reader_state: r.reader_state.into(),
            all_ranges_fully_read: r.all_ranges_fully_read,
        }
    }
}

fn held_state(unset: ChainTime, s: ExternalsReaderState) -> ReaderState
    ensures { result ≡ held_state unset s }
{
    let ranges = s.ranges;
    let by_partitions = s.by_partitions;
    ReaderState {
        ranges,
        len: s.len,
        by_partitions,
        last_read_to_anchor_chain_time: saved_time(unset, s.last_read_to_anchor_chain_time),
    }
}

impl Reader {
    // The core's reader in this shape; a time that no mark says is there stays as it was.
    #[tactic(auto, unfolding(crate::specs::Shapes::held_reader))]
    pub(crate) fn hold(&mut self, r: ExternalsReader)
        ensures { self.new ≡ held_reader self.old.reader_state.last_read_to_anchor_chain_time.time r }
    {
        let unset = self.reader_state.last_read_to_anchor_chain_time.time;
        let buffer_limits_by_partitions = r.buffer_limits_by_partitions;
        *self = Reader {
            for_shard_id: r.for_shard_id,
            block_seqno: r.block_seqno,
            next_chain_time: r.next_chain_time,
            msgs_exec_params: r.msgs_exec_params,
            buffer_limits_by_partitions,
            reader_state: held_state(unset, r.reader_state),
            all_ranges_fully_read: r.all_ranges_fully_read,
        };
    }
}

// ---- answers: a refused call has its number, and zeros beside it
impl From<Result<Option<Authored<CachedAnchor>>, Refusal>> for AnchorShown {
    ghost from_gives = { λ r a. a ≡ anchor_answer (anchor_answer_of r) };

    fn from(answer: Result<Option<Authored<CachedAnchor>>, Refusal>) -> AnchorShown {
        match answer {
            Ok(Some(front)) => {
                let author = front.author;
                AnchorShown {
                    number: 0,
                    found: true,
                    anchor: front.value,
                    author,
                }
            }
            Ok(None) => NO_ANCHOR,
            Err(refusal) => AnchorShown {
                number: refusal.into(),
                ..NO_ANCHOR
            },
        }
    }
}

impl From<Result<Option<Authored<AnchorInfo>>, Refusal>> for InfoShown {
    ghost from_gives = { λ r a. a ≡ info_answer (info_answer_of r) };

    fn from(answer: Result<Option<Authored<AnchorInfo>>, Refusal>) -> InfoShown {
        match answer {
            Ok(Some(last)) => {
                let author = last.author;
                InfoShown {
                    number: 0,
                    found: true,
                    info: last.value,
                    author,
                }
            }
            Ok(None) => NO_INFO,
            Err(refusal) => InfoShown {
                number: refusal.into(),
                ..NO_INFO
            },
        }
    }
}

impl From<Result<bool, Refusal>> for FlagAnswer {
    ghost from_gives = { λ r a. a ≡ flag_shown (flag_answer_of r) };

    fn from(answer: Result<bool, Refusal>) -> FlagAnswer {
        FlagAnswer {
            number: refusals::number(answer),
            flag: answer.unwrap_or(false),
        }
    }
}

impl From<Result<u8, Refusal>> for PartitionShown {
    ghost from_gives = { λ r a. a ≡ partition_shown (answer_of r) };

    fn from(answer: Result<u8, Refusal>) -> PartitionShown {
        PartitionShown {
            number: refusals::number(answer),
            partition: answer.unwrap_or(0),
        }
    }
}

impl From<Result<u16, Refusal>> for FillState {
    ghost from_gives = { λ r a. a ≡ fill_shown (fullness r) };

    fn from(answer: Result<u16, Refusal>) -> FillState {
        FillState {
            number: refusals::number(answer),
            free: answer.unwrap_or(0),
        }
    }
}

impl From<Result<[bool; 8], Refusal>> for PartitionIds {
    ghost from_gives = { λ r a. a ≡ partition_ids_shown (partition_ids_of r) };

    fn from(answer: Result<[bool; 8], Refusal>) -> PartitionIds {
        PartitionIds {
            number: refusals::number(answer),
            present: answer.unwrap_or([false; 8]),
        }
    }
}

impl From<Result<ExternalsRangeReaderState, Refusal>> for NextRange {
    ghost from_gives = { λ r a. a ≡ next_range_shown (next_range_of r) };

    fn from(answer: Result<ExternalsRangeReaderState, Refusal>) -> NextRange {
        NextRange {
            number: refusals::number(answer),
            range: answer.unwrap_or(NO_RANGE),
        }
    }
}

// Functions with a name; tried: closures in `map`, the proof that both arrays are the rule's didn't close.
fn value_of(value: Option<u32>) -> u32
    ensures { result ≡ value_of value }
{
    value.unwrap_or(0)
}

fn is_there(value: Option<u32>) -> bool
    ensures { result ≡ is_there value }
{
    value.is_some()
}

impl From<Result<[Option<u32>; 8], Refusal>> for ByPartitions {
    ghost from_gives = { λ r a. a ≡ by_partitions_shown (by_partitions_of r) };

    fn from(answer: Result<[Option<u32>; 8], Refusal>) -> ByPartitions {
        match answer {
            Ok(values) => ByPartitions {
                number: 0,
                values: values.map(value_of),
                present: values.map(is_there),
            },
            Err(refusal) => ByPartitions {
                number: refusal.into(),
                values: [0; 8],
                present: [false; 8],
            },
        }
    }
}

// ---- the reads' answers
impl From<Result<ReadIntoBuffers, Refusal>> for AllAnswer {
    ghost from_gives = { λ r a. (handed : CoreReader) (t : AnchorsCacheTransaction) → a ≡ all_answer (read_all_answer_of handed t r) };

    fn from(answer: Result<ReadIntoBuffers, Refusal>) -> AllAnswer {
        match answer {
            Ok(a) => AllAnswer {
                number: 0,
                free: a.free.into(),
                used: a.used,
                counts: a.counts,
            },
            Err(refusal) => AllAnswer {
                number: refusal.into(),
                free: None.into(),
                used: 0,
                counts: NO_COUNTS,
            },
        }
    }
}

impl From<Result<ReadExternals, Refusal>> for RangeAnswer {
    ghost from_gives = { λ r a. (handed : Range) (t : AnchorsCacheTransaction) → a ≡ range_answer (read_answer_of handed t r) };

    fn from(answer: Result<ReadExternals, Refusal>) -> RangeAnswer {
        match answer {
            Ok(a) => RangeAnswer {
                number: 0,
                free: a.free,
                last_chain_time: saved_time(ChainTime(0), a.last_chain_time),
                pops: a.pops,
                used: a.used,
                counts: a.counts,
            },
            Err(refusal) => RangeAnswer {
                number: refusal.into(),
                free: 0,
                last_chain_time: saved_time(ChainTime(0), None),
                pops: 0,
                used: 0,
                counts: NO_COUNTS,
            },
        }
    }
}
