//! The turn lock of an account: many threads, one history.
//!
//! A `Lock` has a value that stands for a history. A caller has a `Pass`, and `Lock::enter` gives
//! the pass its `Turn`. In its turn the pass alone has the value, and has seen all of the history.
//! `Turn::commit` ends the turn with one more entry, and `Turn::leave` ends it with none. The first
//! pass makes other passes, takes them back by `Lock::join`, and ends the lock by `Lock::close`.
#![tactic(auto)]

mod faults;
pub mod laws;
mod lock;
mod order;
mod pass;
mod slot;
mod start;
mod steps;
mod turn;
mod view;

pub use faults::{CloseFault, Full, LockFault};
pub use lock::Lock;
pub use pass::Pass;
pub use turn::Turn;
