//! The accounts file of a mail host: its TOML text, read into a table of accounts, or its first
//! refusal.
#![tactic(auto)]

mod accounts;
mod doubles;
mod draft;
mod entry;
mod error;
mod file;
mod hosts;
mod key;
mod lists;
mod plain;
mod roots;
mod rules;
mod settings;
mod values;

pub use entry::AccountEntry;
pub use error::AccountsError;
pub use file::read_accounts;
pub use hosts::HostTable;
pub use key::Key;
pub use plain::plain_table;
pub use settings::Settings;
