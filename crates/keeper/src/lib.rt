//! Keepers of the files of an account: the trait of a keeper, the trait of the stores that give
//! keepers out, and implementations of both in memory.
#![tactic(auto)]

mod bytes;
mod failed;
mod files;
mod fixed;
mod keeper;
mod kept;
mod ledger;
mod mem_stores;
mod memory;
mod plan;
mod rows;
mod stores;

pub use bytes::Bytes;
pub use failed::KeepError;
pub use fixed::FixedKeeper;
pub use keeper::Keeper;
pub use mem_stores::MemStores;
pub use memory::MemKeeper;
pub use plan::{KeepCall, KeepFail};
pub use rows::{FileRow, StoreRow};
pub use stores::Stores;
