//! Tests of accounts over folders.
#![tactic(auto)]

#[cfg(test)]
mod calls;
#[cfg(test)]
mod folders;
