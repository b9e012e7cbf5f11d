//! The opening of a host's accounts, and their closing: each account's keeper is taken from the
//! stores, and given back to them.
#![tactic(auto)]

mod account;
mod host;

pub use account::{close_account, open_account};
pub use host::{close_accounts, open_accounts};
