// The externals reader in a session of extprobe: its calls and its state as text, and states put without a call.
// Text goes to lent bytes from a place on, as far as they reach; each function answers the place behind its text.
// `(out, at)` are no struct: one that holds `&mut` needs a `ghost_name` clause in each function (tried, no plainer).
#![tactic(auto)]

pub mod functions;
pub mod given;
pub mod read;
pub mod shown;
