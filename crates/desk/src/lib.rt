//! A desk: several accounts that a session asks, and that others may ask at the same time.
#![tactic(auto)]

mod desk;
mod laws;

pub use desk::Desk;
pub use laws::{
    calls_are_logs, full_histories_stay, logs_join, logs_without_failure_are_replied,
    parts_are_own_entries,
};
