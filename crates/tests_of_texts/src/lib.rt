//! Tests of the texts that are read and written: ledgers, file names, IMAP commands, policy requests
//! and accounts files.
#![tactic(auto)]

#[cfg(test)]
mod accounts;
#[cfg(test)]
mod commands;
#[cfg(test)]
mod file_names;
#[cfg(test)]
mod ledgers;
#[cfg(test)]
mod policy;
