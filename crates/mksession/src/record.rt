// The bytes of a record.
use arrayvec::ArrayVec;
use std::io::Write;

// The most that a record may have.
const MOST: usize = 131_072;

// One more, by which a record that is too long is known.
const ROOM: usize = MOST + 1;

// Bytes without room are left out, and `put` answers nothing (no plainer): a refusal by it would come before that of a
// wrong word behind, and other lines would be told.
#[derive(Drop)]
pub struct Record(ArrayVec<u8, ROOM>);

impl Record {
    pub fn new() -> Self {
        Record(ArrayVec::new())
    }

    pub fn clear(&mut self) {
        self.0.clear();
    }

    pub fn bytes(&self) -> &[u8] {
        self.0.as_slice()
    }

    pub fn is_too_long(&self) -> bool {
        MOST < self.0.len()
    }

    pub fn put(&mut self, bytes: &[u8]) {
        let _ = self.0.write(bytes);
    }

    // Room for a head: the length of what is behind it, 4 bytes, and the kind, 2, with which the length begins.
    pub fn put_head(&mut self) {
        self.put(&[0; 6]);
    }

    pub fn fill_head(&mut self, kind: u16) {
        let n = self.0.len().saturating_sub(4) as u32;
        self.put_at(0, &n.to_le_bytes());
        self.put_at(4, &kind.to_le_bytes());
    }

    // In place of what stands from a place on.
    pub fn put_at(&mut self, at: usize, bytes: &[u8]) {
        let end = at.saturating_add(bytes.len());
        if let Some(place) = self.0.as_mut_slice().get_mut(at..end) {
            place.copy_from_slice(bytes);
        }
    }
}
