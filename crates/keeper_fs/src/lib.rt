//! Keepers over real folders: a Maildir++ tree for each account, below one folder.
#![tactic(auto)]

mod drafts;
mod errors;
mod folders;
mod fs_keeper;
mod fs_stores;
mod ledgers;
mod listing;
mod messages;
mod names;
mod writing;

pub use fs_keeper::FsKeeper;
pub use fs_stores::FsStores;
