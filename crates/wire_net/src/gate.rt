// Places that a worker reaches, and what is told of them.

/// A place in a worker's run.
#[derive(Clone, Copy, Debug, PartialEq, Eq)]
pub enum GatePlace {
    /// A recalculation of this account is about to read the part of this index. Both count from 0.
    Part { account: u32, index: u32 },
    /// The door of this worker has accepted a connection. Workers count from 0.
    Accepted { worker: u32 },
}

/// What is told of each place that a worker reaches. A test holds a worker there; it may wait.
pub trait Gate {
    /// A worker is at this place, and goes on when the call returns.
    fn at(&self, place: GatePlace);
}

/// The gate that holds nobody.
#[derive(Clone, Copy, Debug, Drop)]
pub struct OpenGate;

impl Gate for OpenGate {
    fn at(&self, _place: GatePlace) {}
}
