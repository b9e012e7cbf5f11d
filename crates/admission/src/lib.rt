//! Whether a message fits the limits of its quota roots.
#![tactic(auto)]

mod verdict;

pub use verdict::{Verdict, admit};
