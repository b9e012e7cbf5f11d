// What contracts see of an account: its origin, its history and its keeper.
ghost use Rattle.std.specs.Prelude.{◌≡◌};

use crate::AccountState;
use account_core::Booked;
use keeper::Keeper;

impl<K: Keeper> Booked for AccountState<K> {
    ghost origin = { λ state. state.origin };

    ghost history = { λ state. state.history };
}

impl<K: Keeper> AccountState<K> {
    /// The keeper.
    pub fn keeper(&self) -> &K
        ensures told { K.told result.now ≡ self.now.store.told }
        ensures faults { K.faults result.now ≡ self.now.store.faults }
        ensures append_faults { K.append_faults result.now ≡ self.now.store.append_faults }
        ensures lists { K.lists result.now ≡ self.now.store.lists }
    {
        &self.live.keeper
    }
}
