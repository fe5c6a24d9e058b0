// The digest of a cache: its anchors by `get`, with their messages, then the history's entries.
use anchors_cache::{AnchorInfo, AnchorsCacheTransaction, Authored, CachedAnchor, TABLES_BYTES};
use rows::MESSAGE_LEN;

#[derive(Clone, Copy)]
struct Digest(u32);

impl Digest {
    fn number(&mut self, x: u64) {
        self.0 = self.0.wrapping_mul(31).wrapping_add((x % 1_000_003) as u32);
    }

    fn bytes(&mut self, bytes: &[u8]) {
        for b in bytes {
            self.number(u64::from(*b));
        }
    }

    fn anchor(&mut self, area: &[u8], authored: Authored<CachedAnchor>) {
        let anchor = authored.value;
        self.number(u64::from(anchor.id));
        self.number(anchor.chain_time.0);
        self.number(u64::from(anchor.ours));
        self.number(anchor.count as u64);
        self.bytes(&authored.author);
        let from = anchor.place.saturating_mul(MESSAGE_LEN);
        let to = from.saturating_add(anchor.count.saturating_mul(MESSAGE_LEN));
        if let Some(messages) = area.get(from..to) {
            self.bytes(messages);
        }
    }

    fn info(&mut self, authored: Authored<AnchorInfo>) {
        let info = authored.value;
        self.number(u64::from(info.id));
        self.number(info.ct.0);
        self.number(u64::from(info.all_exts_count));
        self.number(u64::from(info.our_exts_count));
        self.bytes(&authored.author);
    }
}

pub fn of_cache(tables: &[u8; TABLES_BYTES], area: &[u8], t: AnchorsCacheTransaction) -> u32 {
    let mut digest = Digest(0);
    for i in 0..t.cache.len {
        if let Ok(Some(anchor)) = anchors_cache::get(tables, t, i) {
            digest.anchor(area, anchor);
        }
    }
    for i in 0..t.cache.history_len {
        let row = t.cache.history_first.saturating_add(i);
        if let Some(info) = anchors_cache::history_entry(tables, row) {
            digest.info(info);
        }
    }
    digest.0
}
