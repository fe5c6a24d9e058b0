// No code: one range's read as document 01 tells it (specs/Rules), the types that it speaks of, and laws about these
// rules (proofs). Types that rules alone speak of stand in specs/Walks.
#![tactic(auto)]

use ext_types::{ChainTime, ExternalKey, NO_KEY};
use messages_buffer::{ExternalsPartitionRangeReaderState, NO_PARTITION};
use shard_ident::ShardIdent;

// Bytes of an output entry.
pub const ENTRY_LEN: usize = 26;

// A range. `current_position` is where its next read goes on: the place after the last message read; the id and offset
// of an expired anchor that was passed since; the last imported anchor's end, once the block's own range is fully read;
// before any of these, where the range began. `to` is the furthest place ever read to.
#[repr(C)]
#[derive(Clone, Copy, Debug, PartialEq, Eq)]
pub struct ExternalsRangeReaderState {
    pub seqno: u32,
    pub from: ExternalKey,
    pub to: ExternalKey,
    pub current_position: ExternalKey,
    pub chain_time: ChainTime,
    pub fully_read: bool,
    pub by_partitions: [ExternalsPartitionRangeReaderState; 8],
}

#[derive(Clone, Copy, Debug, PartialEq, Eq)]
pub enum ReadNextExternalsMode {
    ToTheEnd,
    ToPreviuosReadTo,
}

// A partition's processed position, if it has one. A mark, no `Option`: C interface.
#[repr(C)]
#[derive(Clone, Copy, Debug, PartialEq, Eq)]
pub struct ProcessedTo {
    pub key: ExternalKey,
    pub present: bool,
}

// Messages of ours per partition. Three arrays, no array of structs: C interface.
#[repr(C)]
#[derive(Clone, Copy, Debug, PartialEq, Eq)]
pub struct ReadCounts {
    pub read: [u32; 8],
    pub expired: [u32; 8],
    pub buffered: [u32; 8],
}

// No range: no partition is marked, every number is 0.
pub const NO_RANGE: ExternalsRangeReaderState = ExternalsRangeReaderState {
    seqno: 0,
    from: NO_KEY,
    to: NO_KEY,
    current_position: NO_KEY,
    chain_time: ChainTime(0),
    fully_read: false,
    by_partitions: [NO_PARTITION; 8],
};

pub const NO_COUNTS: ReadCounts = ReadCounts {
    read: [0u32; 8],
    expired: [0u32; 8],
    buffered: [0u32; 8],
};

// What a read fixes at entry. `saved_end` is document 01's saved end: the range's "to" as it is then. `room` is the
// length of the lent output. `limits` beside `processed`: C interface, each comes as an array of its own.
#[derive(Clone, Copy, Debug, PartialEq, Eq)]
pub struct Context {
    pub shard: ShardIdent,
    pub seqno: u32,
    pub chain_time: ChainTime,
    pub limit: ChainTime,
    pub mode: ReadNextExternalsMode,
    pub position: ExternalKey,
    pub saved_end: ExternalKey,
    pub limits: [u16; 8],
    pub processed: [ProcessedTo; 8],
    pub room: usize,
}

// `key` is the id and offset of the anchor looked at; the position follows it only when a message is read or the anchor
// is expired.
#[derive(Clone, Copy, Debug, PartialEq, Eq)]
pub struct Place {
    pub key: ExternalKey,
    pub reached: bool,
    pub position: ExternalKey,
    pub to: ExternalKey,
}

// The range's buffers, the fewest free places of one of them (0: it is full), and how many bytes of the output are
// used.
#[derive(Clone, Copy, Debug, PartialEq, Eq)]
pub struct Buffers {
    pub free: u16,
    pub used: usize,
    pub by_partitions: [ExternalsPartitionRangeReaderState; 8],
}
