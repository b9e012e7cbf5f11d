// An account over a keeper, served under its lock.
ghost use Rattle.std.specs.Prelude.{◌≡◌, ◌+◌, [], OnOk, IsErrOf};
ghost use Rattle.account_lock.specs.Passes.{IsOf, view};
ghost use Rattle.account_core.specs.Legality.{HasBytes, MayBeAsked};

use account_core::{Call, Reply, StepError};
use account_ledger::AccountState;
use account_lock::{Lock, Pass};
use accounts_file::plain_table;
use keeper::{KeepCall, KeepFail, MemKeeper};
use quota_units::{Limits, Name};
use std::alloc::Global;
use std::sync::Wait;
use std::test::Fail;

/// Serves a call of the owner in a turn of its own. The call becomes one entry, unless memory runs
/// out or the journal is full.
fn serve<R: Wait>(
    rt: &R,
    alloc: Global,
    lock: &Lock<AccountState<MemKeeper>>,
    pass: &mut Pass,
    call: Call,
) -> Result<Reply, StepError>
    requires lock { IsOf lock.now pass.old }
    requires owner { (view pass.old).number ≡ 0 }
    requires asked { MayBeAsked call }
    requires bytes { HasBytes call [] }
    ensures lock { IsOf lock.now pass.new }
    ensures owner { (view pass.new).number ≡ 0 }
    ensures own { OnOk result ((view pass.new).own ≡ (view pass.old).own + 1) }
    ensures own_fault { IsErrOf result StepError.Store
        → (view pass.new).own ≡ (view pass.old).own + 1 }
{
    let mut turn = lock.enter(rt, pass);
    let reply = turn.state().serve(alloc, 0, call, b"");
    match reply {
        Ok(reply) => {
            turn.commit();
            Ok(reply)
        }
        Err(StepError::Store) => {
            turn.commit();
            Err(StepError::Store)
        }
        Err(fault) => {
            turn.leave();
            Err(fault)
        }
    }
}

/// A keeper without files, whose first install of a ledger fails.
fn keeper(alloc: Global) -> Result<MemKeeper, Fail> {
    let fail = KeepFail {
        kind: KeepCall::InstallLedger,
        nth: 1,
    };
    let fails = vec![in alloc; fail]?;
    Ok(MemKeeper::new(alloc, Vec::new(alloc), Vec::new(alloc), fails)?)
}

#[test]
fn an_account_over_a_keeper_is_served_under_its_lock(rt: HostRuntime) -> Result<(), Fail> {
    let alloc = rt.alloc();
    let limits = Limits::new(Some(1024), None).ok_or("limits in range")?;
    let table = plain_table(alloc, limits)?;
    let setup = table.entry(0).setup.copy(alloc)?;
    let Ok(account) = AccountState::open(alloc, keeper(alloc)?, setup, 0) else {
        return Err("the account is refused".into());
    };
    let Ok((lock, mut pass)) = Lock::new(alloc, account, 1) else {
        return Err("no memory".into());
    };
    let root = Name::of(alloc, b"")?;
    let refused = serve(&rt, alloc, &lock, &mut pass, Call::Quota { root });
    assert_eq!(rt; refused.err(), Some(StepError::Store));
    let root = Name::of(alloc, b"")?;
    let reply = serve(&rt, alloc, &lock, &mut pass, Call::Quota { root })?;
    match &reply {
        Reply::Quota(row) => assert_eq!(rt; row.limits, limits),
        _ => return Err("a reply of another call".into()),
    }
    let Ok(account) = lock.close(pass) else {
        return Err("refused with all passes joined".into());
    };
    assert_eq!(rt; account.calls(), 2);
    Ok(())
}
