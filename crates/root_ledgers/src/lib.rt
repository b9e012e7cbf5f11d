//! The ledgers of an account's quota roots, over a keeper: a fresh scan settles a root, and a
//! change of its usage writes a line.
#![tactic(auto)]

mod book;
mod change;
mod folding;
mod lines;
mod root_ledgers;
mod scans;
mod settling;

pub use book::{Book, Standing};
pub use change::Change;
pub use root_ledgers::RootLedgers;
pub use scans::{size_of_file, totals_of_files};
