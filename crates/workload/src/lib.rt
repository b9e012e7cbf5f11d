//! A workload: requests of the policy protocol by a fixed recipe, served over an account in memory,
//! and a summary of how they were answered and of what the account uses at the end.
#![tactic(auto)]

mod pipes;
mod requests;
mod run;
mod summary;
mod tally;
mod text;
mod usage;

pub use run::run_workload;
pub use summary::{Summary, summary_text};

#[cfg(test)]
mod tests;
