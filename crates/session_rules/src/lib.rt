// No code: what a session holds, what each record of it says (document 01, "Session program"), and the laws of that.
#![tactic(auto)]

use anchors_cache::AnchorsCacheTransaction;

// `records` were taken; `stopped`: one was refused, or the input has ended; `at`: the place behind the text;
// `routes_len` bytes of the lent routes are listed.
#[derive(Clone, Copy)]
pub struct Session {
    pub records: u64,
    pub stopped: bool,
    pub at: usize,
    pub routes_len: usize,
    pub transaction: AnchorsCacheTransaction,
}
