// A desk of one account without files.
ghost use Rattle.std.specs.Prelude.{◌≡◌, [], ◌∷◌, map, IfOk};
ghost use Rattle.std.specs.List.{All};
ghost use Rattle.accounts_file.specs.Hosts.{plain_hosts};
ghost use Rattle.plain_desk.specs.Owning.{share_of};
ghost use Rattle.owner_sessions.specs.Plain.{NeverFails, plain_share};

use account_ledger::{AccountState, OpenError};
use accounts_file::{HostTable, plain_table};
use keeper::FixedKeeper;
use plain_desk::PlainDesk;
use quota_units::{Limits, NoMemory};
use std::alloc::Global;

/// The table of one account with these limits, and a desk of that account over a keeper without
/// files.
///
/// # Errors
///
/// `NoMemory` if memory runs out.
pub fn open_plain(
    alloc: Global,
    limits: Limits,
) -> Result<(HostTable, PlainDesk<FixedKeeper>), NoMemory>
    ensures table { IfOk result (λ opened. opened.0 ≡ plain_hosts limits) }
    ensures shares { IfOk result (λ opened. map share_of opened.1 ≡ plain_share limits ∷ []) }
    ensures never_fails { IfOk result (λ opened. All NeverFails opened.1) }
{
    let table = plain_table(alloc, limits)?;
    let state = open_account(alloc, &table, limits)?;
    let mut states = Vec::new(alloc);
    states.push(state)?;
    Ok((table, PlainDesk::new(states)))
}

/// Opens the account of that table.
fn open_account(
    alloc: Global,
    table: &HostTable,
    limits: Limits,
) -> Result<AccountState<FixedKeeper>, NoMemory>
    requires { table.now ≡ plain_hosts limits }
    ensures share { IfOk result (λ state. share_of state ≡ plain_share limits) }
    ensures never_fails { IfOk result NeverFails }
{
    let setup = table.entry(0).setup.copy(alloc)?;
    let keeper = FixedKeeper::new(alloc)?;
    match AccountState::open(alloc, keeper, setup, table.epoch()) {
        Ok(state) => Ok(state),
        Err(fault) => match fault.cause {
            OpenError::NoMemory => Err(NoMemory),
            _ => unreachable!(),
        },
    }
}
