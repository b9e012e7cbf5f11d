//! Tests of keepers in memory and over folders, of the names of deliveries, of openings, and of the
//! turn lock.
#![tactic(auto)]

#[cfg(test)]
mod bases;
#[cfg(test)]
mod drafts;
#[cfg(test)]
mod folders;
#[cfg(test)]
mod keepers;
#[cfg(test)]
mod openings;
#[cfg(test)]
mod systems;
#[cfg(test)]
mod turns;
