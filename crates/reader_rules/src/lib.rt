// No code: document 01's "All ranges" (specs/Rules) and "Offsets" (specs/Offsets), the types that they speak of, and
// laws about these rules (proofs).
#![tactic(auto)]

use ext_types::{ChainTime, ExternalKey, Seconds};
use range_rules::{ExternalsRangeReaderState, ProcessedTo};
use shard_ident::ShardIdent;

// The most ranges that a reader holds, and the most that the open-ranges limit may be; twins in specs/State.
pub const MAX_RANGES: usize = 16;

pub const MAX_OPEN_RANGES: u8 = 16;

// The reader's record of a partition. Where it is not present its numbers are free. A mark, no `Option`: C interface.
#[repr(C)]
#[derive(Clone, Copy, Debug, PartialEq, Eq)]
pub struct ExternalsPartitionReaderState {
    pub processed_to: ExternalKey,
    pub curr_processed_offset: u32,
    pub present: bool,
}

// `len` ranges, by rising seqno; the slots behind them are free. An array and a length: no heap, fixed memory.
#[derive(Clone, Copy, Debug, PartialEq, Eq)]
pub struct ExternalsReaderState {
    pub ranges: [ExternalsRangeReaderState; MAX_RANGES],
    pub len: usize,
    pub by_partitions: [ExternalsPartitionReaderState; 8],
    pub last_read_to_anchor_chain_time: Option<ChainTime>,
}

// `new_is_some`: new settings wait. A mark, no `Option`: C interface.
#[repr(C)]
#[derive(Clone, Copy, Debug, PartialEq, Eq)]
pub struct MsgsExecutionParams {
    pub externals_expire_timeout: Seconds,
    pub open_ranges_limit: u8,
    pub new_is_some: bool,
}

#[derive(Clone, Copy, Debug, PartialEq, Eq)]
pub struct ExternalsReader {
    pub for_shard_id: ShardIdent,
    pub block_seqno: u32,
    pub next_chain_time: ChainTime,
    pub msgs_exec_params: MsgsExecutionParams,
    pub buffer_limits_by_partitions: [u16; 8],
    pub reader_state: ExternalsReaderState,
    pub all_ranges_fully_read: bool,
}

#[derive(Clone, Copy, Debug, PartialEq, Eq)]
pub enum GetNextMessageGroupMode {
    Continue,
    Refill,
}

// What a read of all ranges fixes at entry; `room` is the length of the lent output.
#[derive(Clone, Copy, Debug, PartialEq, Eq)]
pub struct Fixed {
    pub shard: ShardIdent,
    pub block_seqno: u32,
    pub next_chain_time: ChainTime,
    pub params: MsgsExecutionParams,
    pub limits: [u16; 8],
    pub mode: GetNextMessageGroupMode,
    pub by_partitions: [ExternalsPartitionReaderState; 8],
    pub processed: [ProcessedTo; 8],
    pub imported: Option<ExternalKey>,
    pub room: usize,
}

// What is asked of a partition, by its record in the reader and its record in a range. An enum and no closure (no
// plainer): the rules name each test, and one contract of a walk over partitions speaks of all.
#[derive(Clone, Copy, Debug, PartialEq, Eq)]
pub enum PartitionTest {
    InRange,
    InReader,
    Unprocessed,
    Empty,
    Reached,
    Collected,
}

// What ranges together hold of a partition: whether any has it, the messages in their buffers, and the greatest
// processed offset. A mark and no `Option` (no plainer): of a partition that no range has, the offset 0 is still read.
#[derive(Clone, Copy, Debug, PartialEq, Eq)]
pub struct Tally {
    pub present: bool,
    pub count: u64,
    pub processed: u32,
}
