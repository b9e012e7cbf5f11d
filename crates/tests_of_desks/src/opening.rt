// Opening accounts of a table.
ghost use Rattle.std.specs.Prelude.{◌≡◌, ◌<◌, length, slice_get, Some, IfOk};
ghost use Rattle.accounts_file.specs.declared.entry.AccountEntry.{AccountEntry};
ghost use Rattle.front_core.specs.Desks.{IsOpenedAs};
ghost use Rattle.plain_desk.specs.Owning.{IsFresh, share_of};

use account_ledger::AccountState;
use accounts_file::HostTable;
use keeper::Keeper;
use std::alloc::Global;
use std::test::Fail;

/// Opens the account of this number over a keeper.
pub(crate) fn open_account<K: Keeper + Drop>(
    alloc: Global,
    table: &HostTable,
    account: u32,
    keeper: K,
) -> Result<AccountState<K>, Fail>
    requires { account < length table.now.accounts }
    ensures fresh { IfOk result IsFresh }
    ensures opened { IfOk result (λ state. (entry : AccountEntry)
        → slice_get table.now.accounts account ≡ Some entry
        → IsOpenedAs entry table.now.epoch (share_of state)) }
{
    let setup = table.entry(account).setup.copy(alloc)?;
    match AccountState::open(alloc, keeper, setup, table.epoch()) {
        Ok(state) => Ok(state),
        Err(fault) => Err(fault.cause.into()),
    }
}
