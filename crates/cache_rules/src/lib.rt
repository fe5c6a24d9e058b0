// No code: document 01's cache and its rules, on lists (specs/Rules), and laws about these rules (proofs).
#![tactic(auto)]

use rows::MESSAGE_LEN;

// The caps of document 01; each has its twin in specs/Rules.
pub const MAX_ANCHORS: usize = 32;

pub const MAX_ANCHOR_MESSAGES: usize = 512;

pub const MAX_MESSAGES: usize = 1024;

pub const MAX_HISTORY: usize = 256;

// The least bytes of the lent message area.
pub const AREA_BYTES: usize = MESSAGE_LEN * MAX_MESSAGES;

pub const AUTHOR_BYTES: usize = 32;
