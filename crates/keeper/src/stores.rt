ghost use Rattle.std.specs.Prelude.{◌≡◌, ◌<◌, ℕ, List, Option, IfOk, IsErrOf};
ghost use Rattle.quota_units.specs.Causes.{HasCause};
ghost use Rattle.keeper.specs.Calls.{Changes};
ghost use Rattle.keeper.specs.Accounts.{Opens, Closes};

use crate::{KeepError, Keeper};
use std::alloc::Global;

/// Gives out the keepers of accounts by name, and takes them back.
pub trait Stores {
    type K: Keeper;

    /// The names of the accounts, each with its keeper unless the account is open, if the stores
    /// tell them to contracts.
    ghost told: { Self → Option (List (List ℕ × Option Self.K)) };

    /// How often a call has failed. The count stops at 2^64 - 1.
    ghost faults: { Self → ℕ };

    /// Opens the account of this name, and returns its keeper with both counts of faults at 0.
    ///
    /// # Errors
    ///
    /// `Failed` if the account could not be opened, which is counted as a fault, and `NoMemory` if
    /// memory ran out. Nothing is opened in either case.
    fn open(&mut self, alloc: Global, account: &[u8]) -> Result<Self::K, KeepError>
        ensures accounts { Changes (Opens (λ kept keeper. (Self.K.told keeper ≡ Self.K.told kept)
            × (Self.K.lists keeper ≡ Self.K.lists kept)) account.now result) (told self.old)
            (told self.new) }
        ensures fresh { IfOk result (λ keeper. (Self.K.faults keeper ≡ 0)
            × (Self.K.append_faults keeper ≡ 0)) }
        ensures cause { HasCause (IsErrOf result KeepError.Failed) (faults self.old)
            (faults self.new) };

    /// Takes back the keeper of the account of this name. It allocates no memory.
    ///
    /// If a call of the keeper other than `append_ledger` has failed since the keeper was opened,
    /// the stores count a fault.
    fn close(&mut self, account: &[u8], keeper: Self::K)
        ensures accounts { Changes (Closes account.now keeper) (told self.old) (told self.new) }
        ensures cause { HasCause (0 < Self.K.faults keeper) (faults self.old) (faults self.new) };
}
