//! The host of several accounts: each is under a lock of its own, and any number of threads may ask
//! them.
//!
//! A `Host` has one lock, and so one history, for each account. A caller has a `SeatSet`, which is
//! one pass of each account. With it the caller makes a `Seats`, a desk whose calls take turns with
//! those of all other callers. The first set makes other sets, takes them back by `Host::join`, and
//! ends the host by `Host::close`.
#![tactic(auto)]

mod ending;
mod faults;
mod host;
mod locking;
mod seat;
mod seats;
mod set;

pub use faults::{EnlistError, HostClose, HostFault};
pub use host::Host;
pub use seats::Seats;
pub use set::SeatSet;
