// The limits that ledgers define.
ghost use Rattle.std.specs.Prelude.{◌≡◌, ◌≤◌, length, IfOk, IsErrOf};
ghost use Rattle.std.specs.Option.{option_map};
ghost use Rattle.quota_units.specs.Causes.{HasCause};
ghost use Rattle.keeper.specs.Calls.{Changes, SpendsDue, both};
ghost use Rattle.account_opening.specs.Limits.{ReadsLimits, limits_of_ledger};

use keeper::{KeepError, Keeper};
use maildirsize::definition_of;
use quota_units::Limits;
use std::alloc::Global;

/// The limits of each root: those that the first line of its ledger defines, or else those in
/// `own`.
pub(crate) fn read_limits<K: Keeper>(
    alloc: Global,
    keeper: &mut K,
    own: &[Limits],
) -> Result<Vec<Limits>, KeepError>
    requires { length own.now ≤ 4 }
    ensures files { Changes (ReadsLimits own.now result) (K.told keeper.old) (K.told keeper.new) }
    ensures count { IfOk result (λ limits. length limits.items ≡ length own.now) }
    ensures cause { HasCause (IsErrOf result KeepError.Failed) (K.faults keeper.old)
        (K.faults keeper.new) }
    ensures due { SpendsDue K.told (both K.faults K.append_faults) (IsErrOf result KeepError.Failed)
        keeper.old keeper.new }
    ensures appends { K.append_faults keeper.new ≡ K.append_faults keeper.old }
{
    let mut limits = Vec::new(alloc);
    for (root, own) in own.iter().enumerate() {
        let bytes = keeper.read_ledger(alloc, root as u32)?;
        limits.push(limits_told(&bytes, *own))?;
    }
    Ok(limits)
}

fn limits_told(bytes: &Option<Vec<u8>>, own: Limits) -> Limits
    ensures { result ≡ limits_of_ledger (option_map (λ b. b.items) bytes.now) own }
{
    match bytes {
        None => own,
        Some(bytes) => definition_of(bytes).unwrap_or(own),
    }
}
