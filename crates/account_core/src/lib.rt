//! The account machine: what an account is, what it replies to each call, and the history that its
//! entries make.
#![tactic(auto)]

mod booked;
mod calls;
mod delivered;
mod laws;
mod rows;
mod scans;

pub use booked::Booked;
pub use calls::{Call, Entry, Reply, RootRow, StepError};
pub use delivered::{delivered_base, delivered_bases_differ};
pub use laws::{
    a_move_is_over_exactly_where_the_message_does_not_fit, accounts_stay_orderly,
    equal_generations_have_equal_usages, logs_are_the_callers_own, logs_join, names_stay_apart,
    no_accepted_message_breaks_a_limit, no_moved_message_breaks_a_limit,
    over_exactly_where_a_message_does_not_fit, replies_have_their_form,
    the_generation_counts_the_changes, whole_scans_are_usages, worked_accounts_are_answered_so,
    worked_entries_touch_objects_so,
};
pub use rows::RootRows;
pub use scans::{RootSets, TotalsList};
