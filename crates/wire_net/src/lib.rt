//! The edge to clients: nets that open doors, doors that connections come through, and spawners
//! that run jobs in threads.
//!
//! A `Net` opens doors for a `Wire` of `wire_io`, and takes them back in the end. A `Door` accepts
//! one connection after the other, as a `Source` and a `Sink`. A `Spawner` runs jobs, such as one
//! at each door. A `Gate` is told of the places that a worker reaches.
#![tactic(auto)]

mod door;
mod gate;
mod jobs;
mod memory_door;
mod memory_net;
mod net;
mod spawners;
mod tcp;
#[cfg(test)]
mod tests;
mod waiting;

pub use door::{Accepted, Door};
pub use gate::{Gate, GatePlace, OpenGate};
pub use jobs::{Job, Spawner, run_jobs};
pub use memory_door::MemDoor;
pub use memory_net::MemNet;
pub use net::{Net, NetError};
pub use spawners::{FewSpawner, ThreadSpawner};
pub use tcp::{TcpDoor, TcpNet};
pub use waiting::MemConnection;
