//! Tests of hosts: accounts under locks, which several callers ask.
#![tactic(auto)]

#[cfg(test)]
mod closing;
#[cfg(test)]
mod headline;
#[cfg(test)]
mod opening;
#[cfg(test)]
mod two_sessions;
