//! Tests of the lowest crates: quantities and names, quota roots, fitting, and feeds of bytes.
#![tactic(auto)]

#[cfg(test)]
mod feeds;
#[cfg(test)]
mod fitting;
#[cfg(test)]
mod roots;
#[cfg(test)]
mod units;
