//! What all fronts share: which desks their sessions ask, how a request is taken from a feed, and
//! what the work for it does to a desk.
#![tactic(auto)]

mod laws;

pub use laws::calls_keep_accounts;

/// The most bytes that a session takes from its source.
pub const INPUT_LIMIT: u64 = 1073741824;
