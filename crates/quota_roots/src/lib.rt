//! Quota roots, and which of them govern which mailbox.
#![tactic(auto)]

mod lists;
mod mailbox;
mod root;
mod root_set;
mod roots;
mod setup;

pub use lists::{LimitsList, NameList};
pub use mailbox::{canonical_name, canonical_spelling, is_mailbox_name};
pub use root::RootSpec;
pub use root_set::RootSet;
pub use roots::{MAX_ROOTS, Roots, RootsError, first_double, is_root_name};
pub use setup::{MAX_JOURNAL, MAX_MAILBOXES, Setup};
