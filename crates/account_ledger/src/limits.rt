// Setting the limits of a root and installing its ledger.
ghost use Rattle.std.specs.Prelude.{◌≡◌, ◌≢◌, ◌<◌, [], Some, length, nat_eq};
ghost use Rattle.quota_roots.specs.RootLists.{root_named};
ghost use Rattle.account_ledger.specs.Lives.{Acts, Steps, store_of};
ghost use Rattle.account_ledger.specs.Settling.{AreSettled};

use crate::live::LiveAccount;
use account_core::{Call, Reply, RootRow, StepError};
use keeper::Keeper;
use quota_units::Limits;
use std::alloc::Global;

impl<K: Keeper> LiveAccount<K> {
    /// Sets the limits of the root of this name. If the root is in doubt, it is settled first. Then
    /// the folded text of the new limits and the usage becomes its ledger.
    pub(crate) fn set_limits(
        &mut self,
        alloc: Global,
        name: &[u8],
        limits: Limits,
    ) -> Result<Reply, StepError>
        ensures { Steps (Call.SetLimits name.now limits) [] result self.old self.new }
    {
        self.show_whole();
        let Some(root) = self.find_root(name) else {
            return Ok(Reply::NoRoot);
        };
        self.usage(alloc, root)?;
        self.install_limits(name, root, limits)
    }

    /// Sets the limits of the settled root of this name and number, and installs its ledger.
    fn install_limits(&mut self, name: &[u8], root: u32, limits: Limits) -> Result<Reply, StepError>
        requires root { root_named self.old.roots name.now ≡ Some root }
        requires inside { root < length self.old.roots }
        requires settled { AreSettled (nat_eq root) (store_of self.old) }
        ensures acts { Acts (Call.SetLimits name.now limits) [] result self.old self.new }
        ensures never_out_of_memory { result ≢ Err StepError.NoMemory }
    {
        self.ledgers.show_kept();
        let totals = self.ledgers.books()[root as usize].totals;
        if let Err(_) = self.ledgers.fold(&mut self.keeper, root, limits, totals) {
            return Err(StepError::Store);
        }
        Ok(Reply::LimitsSet(RootRow {
            root,
            octets: totals.octets,
            count: totals.count,
            limits,
        }))
    }
}
