//! Sessions over accounts that their owner alone asks: each is the one that its input gives. And a
//! desk of one plain account without files.
#![tactic(auto)]

mod laws;
mod plain;

pub use laws::inputs_decide_sessions;
pub use plain::open_plain;
