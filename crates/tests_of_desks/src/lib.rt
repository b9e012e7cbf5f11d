//! Tests of desks over keepers in memory.
#![tactic(auto)]

#[cfg(test)]
mod calls;
#[cfg(test)]
mod headline;
#[cfg(test)]
mod one_account;
#[cfg(test)]
mod opening;
#[cfg(test)]
mod plain;
#[cfg(test)]
mod policy;
#[cfg(test)]
mod three_accounts;
#[cfg(test)]
mod watching;
#[cfg(test)]
mod working_day;
