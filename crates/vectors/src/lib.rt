//! Worked rows: what the program is given, and what it must write and leave. The tests of other
//! crates use them. What is written and left comes from the formats (docs/FORMATS.md).
#![tactic(auto)]

mod files;
mod imap;
mod policy;
mod refusals;
mod run;
mod workload;

pub use files::Files;
pub use imap::IMAP_RUNS;
pub use policy::POLICY_RUNS;
pub use refusals::{REFUSALS, Refusal};
pub use run::{Expected, Run};
pub use workload::WORKLOAD_RUNS;
