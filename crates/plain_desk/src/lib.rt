//! A desk of accounts that one owner asks, and nobody else does.
#![tactic(auto)]

mod laws;
mod plain;

pub use laws::{no_failure_due_no_fault, no_failures_due_no_failures};
pub use plain::PlainDesk;
