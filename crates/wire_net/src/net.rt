// A net: it opens doors and takes them back.
ghost use Rattle.std.specs.Prelude.{◌≡◌, ◌≤◌, ◌<◌, ◌+◌, ℕ, List, Option, IfOk, OnErr, length};
ghost use Rattle.std.specs.List.{All};
ghost use Rattle.quota_units.specs.Causes.{HasCause};
ghost use Rattle.wire_net.specs.Doors.{IsFresh};
ghost use Rattle.wire_net.specs.Nets.{IsNetFailure, Retires};
ghost use Rattle.wire_net.specs.declared.net.NetError.TheVariants.{NoMemory as no_memory};

use crate::door::Door;
use quota_units::NoMemory;
use std::alloc::{AllocError, Global};
use thiserror::Error;
use wire_io::Wire;

/// Why a net opened no doors.
#[derive(Clone, Copy, Debug, PartialEq, Eq, Error)]
pub enum NetError {
    /// Memory ran out.
    #[error("out of memory")]
    NoMemory,
    /// The net failed. The failure was counted.
    #[error("the net has failed")]
    Failed,
}

impl From<AllocError> for NetError {
    ghost from_gives = { λ _ e. e ≡ no_memory };

    fn from(_: AllocError) -> Self {
        NetError::NoMemory
    }
}

impl From<NoMemory> for NetError {
    ghost from_gives = { λ _ e. e ≡ no_memory };

    fn from(_: NoMemory) -> Self {
        NetError::NoMemory
    }
}

/// What opens doors to clients, and takes them back.
pub trait Net {
    /// What the net opens.
    type Door: Door;

    /// How often the net has failed. The count stays at 2^64 - 1 once it is there.
    ghost faults: { Self → ℕ };

    /// How many doors the net has opened and not taken back.
    ghost out: { Self → ℕ };

    /// The doors that were taken back, in order, if the net shows them to contracts.
    ghost retired: { Self → Option (List Self.Door) };

    /// Opens this many doors for clients of a wire, at this port. It takes all memory that the
    /// doors need, and the room to take them back.
    ///
    /// # Errors
    ///
    /// `NoMemory` if memory ran out. `Failed` if the net failed. No door is open then.
    fn listen(
        &mut self,
        alloc: Global,
        wire: Wire,
        port: u16,
        doors: u32,
    ) -> Result<Vec<Self::Door>, NetError>
        ensures count { IfOk result (λ made. length made.items ≡ doors) }
        ensures fresh { IfOk result (λ made. All (IsFresh Self.Door.misses Self.Door.ended
            Self.Door.asked Self.Door.told) made.items) }
        ensures cause { HasCause (IsNetFailure result) (faults self.old) (faults self.new) }
        ensures out { IfOk result (λ _. out self.new ≡ out self.old + doors) }
        ensures not_out { OnErr result (out self.new ≡ out self.old) }
        ensures retired { retired self.new ≡ retired self.old };

    /// Closes a door and takes it back. This allocates no memory.
    ///
    /// A door that has missed sixteen accepts in a row is counted as a failure of the net.
    fn retire(&mut self, door: Self::Door)
        requires { 0 < out self.old }
        ensures out { out self.new + 1 ≡ out self.old }
        ensures cause { HasCause (16 ≤ Self.Door.misses door) (faults self.old) (faults self.new) }
        ensures retired { Retires door (retired self.old) (retired self.new) };
}
