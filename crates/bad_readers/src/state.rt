// What the cases hand in: a sound reader and what a case changes in it.
use anchors_cache::{AnchorsCache, AnchorsCacheTransaction};
use cache_rules::AREA_BYTES;
use ext_types::{ChainTime, ExternalKey, NO_KEY, Seconds};
use messages_buffer::{ExternalsPartitionRangeReaderState, NO_LIMIT, NO_PARTITION};
use range_rules::ExternalsRangeReaderState;
use reader_rules::{
    ExternalsPartitionReaderState, ExternalsReader, ExternalsReaderState, MAX_RANGES,
    MsgsExecutionParams,
};
use router::ROUTE_LEN;
use shard_ident::ShardIdent;
use std::array;

// `len` ranges; the seqno of the second; the seqno and the count of partition 0 in the sixth slot, which is free;
// count, presence and limit of partition 3; whether partition 7 is there, and partition 0 in the last range and in the
// reader. Then the settings, the call's arguments, and what is lent.
#[derive(Clone, Copy)]
pub struct Case {
    pub len: usize,
    pub second: u32,
    pub free_seqno: u32,
    pub free_count: u32,
    pub count: u32,
    pub present: bool,
    pub limit: u16,
    pub seventh: bool,
    pub in_last: bool,
    pub in_reader: bool,
    pub current: u32,
    pub mark: bool,
    pub no_limits: bool,
    pub most: u8,
    pub waiting: bool,
    pub workchain: i32,
    pub prefix: u64,
    pub block_seqno: u32,
    pub par_id: u8,
    pub seqno: u32,
    pub taken: u32,
    pub area: usize,
    pub active: bool,
    pub cached: usize,
    pub routes: usize,
    pub route: u16,
    pub route_partition: u8,
}

// Nothing here is refused.
pub fn sound() -> Case {
    Case {
        len: 2,
        second: 2,
        free_seqno: 6,
        free_count: 1,
        count: 1,
        present: true,
        limit: 9,
        seventh: false,
        in_last: true,
        in_reader: true,
        current: 0,
        mark: false,
        no_limits: false,
        most: 4,
        waiting: false,
        workchain: 0,
        prefix: shard_ident::PREFIX_FULL,
        block_seqno: 5,
        par_id: 0,
        seqno: 1,
        taken: 1,
        area: AREA_BYTES,
        active: true,
        cached: 0,
        routes: 2 * ROUTE_LEN,
        route: 1,
        route_partition: 0,
    }
}

fn partition(present: bool, count: u32) -> ExternalsPartitionRangeReaderState {
    ExternalsPartitionRangeReaderState {
        count,
        present,
        ..NO_PARTITION
    }
}

fn reader_partition(present: bool, curr_processed_offset: u32) -> ExternalsPartitionReaderState {
    ExternalsPartitionReaderState {
        processed_to: NO_KEY,
        curr_processed_offset,
        present,
    }
}

impl Case {
    // The same but for what is changed.
    pub fn with<F: FnOnce(&mut Case)>(mut self, change: F) -> Case
        requires { F.IsAlwaysCallable change }
    {
        change(&mut self);
        self
    }

    // A range that is not at its end; `zero` says whether it has partition 0, and `first` is the count of it.
    fn range(self, seqno: u32, zero: bool, first: u32) -> ExternalsRangeReaderState {
        let mut by_partitions = [NO_PARTITION; 8];
        by_partitions[0] = partition(zero, first);
        by_partitions[3] = partition(self.present, self.count);
        by_partitions[7] = partition(self.seventh, 1);
        ExternalsRangeReaderState {
            seqno,
            from: NO_KEY,
            to: ExternalKey {
                anchor_id: 1,
                msgs_offset: 0,
            },
            current_position: NO_KEY,
            chain_time: ChainTime(1000),
            fully_read: false,
            by_partitions,
        }
    }

    // The seqnos are 1, 2, and so on, but for the case's.
    fn ranges(self) -> [ExternalsRangeReaderState; MAX_RANGES] {
        let mut all: [_; MAX_RANGES] = array::from_fn(|i| self.range(i as u32 + 1, true, 1));
        all[1] = self.range(self.second, self.in_last, 1);
        all[5] = self.range(self.free_seqno, true, self.free_count);
        all
    }

    fn partitions(self) -> [ExternalsPartitionReaderState; 8] {
        let mut all = [reader_partition(false, 0); 8];
        if self.no_limits {
            return all;
        }
        all[0] = reader_partition(self.in_reader, self.current);
        all[3] = reader_partition(self.present, 0);
        all[7] = reader_partition(self.seventh, 0);
        all
    }

    pub fn limits(self) -> [u16; 8] {
        let mut all = [NO_LIMIT; 8];
        if self.no_limits {
            return all;
        }
        all[0] = 9;
        all[3] = self.limit;
        all[7] = 9;
        all
    }

    pub fn params(self) -> MsgsExecutionParams {
        MsgsExecutionParams {
            externals_expire_timeout: Seconds(60),
            open_ranges_limit: self.most,
            new_is_some: self.waiting,
        }
    }

    pub fn reader(self) -> ExternalsReader {
        ExternalsReader {
            for_shard_id: ShardIdent {
                workchain: self.workchain,
                prefix: self.prefix,
            },
            block_seqno: self.block_seqno,
            next_chain_time: ChainTime(1000),
            msgs_exec_params: self.params(),
            buffer_limits_by_partitions: self.limits(),
            reader_state: ExternalsReaderState {
                ranges: self.ranges(),
                len: self.len,
                by_partitions: self.partitions(),
                last_read_to_anchor_chain_time: None,
            },
            all_ranges_fully_read: self.mark,
        }
    }

    // An empty cache, unless the case says that anchors are there.
    pub fn transaction(self) -> AnchorsCacheTransaction {
        let t = anchors_cache::new();
        AnchorsCacheTransaction {
            cache: AnchorsCache {
                len: self.cached,
                ..t.cache
            },
            active: self.active,
            ..t
        }
    }
}
