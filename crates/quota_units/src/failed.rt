use thiserror::Error;

/// An object outside has failed: a source, a sink or a store. The failure raised the count of
/// faults of the object that was called.
#[derive(Clone, Copy, Debug, PartialEq, Eq, Error)]
#[error("an object outside has failed")]
pub struct Failed;
