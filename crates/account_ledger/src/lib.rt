//! An account over a keeper: its files, its ledgers and its history are kept in step.
#![tactic(auto)]

mod booked;
mod counting;
mod counts;
mod deliver;
mod fault;
mod limits;
mod live;
mod marks;
mod moves;
mod named;
mod opening;
mod questions;
mod remove;
mod rows;
mod settling;
mod state;

pub use account_opening::OpenError;
pub use opening::OpenFault;
pub use root_ledgers::Standing;
pub use state::AccountState;
