use crate::lock::Lock;
use crate::pass::Pass;
use account_core::Booked;
use thiserror::Error;

/// Memory ran out while a lock was made. The value is handed back.
#[derive(Drop)]
pub struct LockFault<V> {
    pub value: V,
}

/// The lock has already made `limit` passes, as many as it may.
#[derive(Clone, Copy, Debug, PartialEq, Eq, Error)]
#[error("all {limit} passes of the lock were made")]
pub struct Full {
    pub limit: u32,
}

/// A lock that was not closed: `made` passes were made, and the pass stands for only `held` of
/// them. The lock and the pass are handed back.
#[derive(Drop)]
pub struct CloseFault<V: Booked> {
    pub lock: Lock<V>,
    pub pass: Pass,
    pub held: u32,
    pub made: u32,
}
