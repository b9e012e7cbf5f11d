// One call in a turn of its own.
ghost use Rattle.std.specs.Prelude.{◌≡◌, Err};
ghost use Rattle.account_core.specs.Legality.{HasBytes};
ghost use Rattle.account_lock.specs.Passes.{IsOf, view};
ghost use Rattle.desk.specs.Asking.{Asks, IsDeskCall};
ghost use Rattle.desk.specs.Shares.{IsWithinJournal};
ghost use Rattle.account_host.specs.Seating.{Goes, HasRoom, has_entry, share_of};

use account_core::{Call, Reply, StepError};
use account_ledger::AccountState;
use account_lock::{Lock, Pass};
use keeper::Keeper;
use std::alloc::Global;
use std::sync::Wait;

/// Whether a call with this answer has an entry: it got a reply, or its store failed.
pub(crate) fn has_entry(answer: &Result<Reply, StepError>) -> bool
    ensures { result ≡ has_entry answer.now }
{
    match answer {
        Ok(_) => true,
        Err(StepError::Store) => true,
        Err(_) => false,
    }
}

/// Waits for the turn of the pass, and serves one call in it. It takes no memory of its own.
///
/// # Errors
///
/// Those of `AccountState::serve`.
pub(crate) fn ask_in_turn<K: Keeper, R: Wait>(
    rt: &R,
    alloc: Global,
    lock: &Lock<AccountState<K>>,
    pass: &mut Pass,
    call: Call,
    bytes: &[u8],
) -> Result<Reply, StepError>
    requires lock { IsOf lock.now pass.old }
    requires asked { IsDeskCall call }
    requires bytes { HasBytes call bytes.now }
    ensures lock { IsOf lock.now pass.new }
    ensures asks { Asks (share_of (view pass.old)) call result (share_of (view pass.new)) }
    ensures goes { Goes (view pass.old) (view pass.new) }
    ensures within { IsWithinJournal (share_of (view pass.new)) }
    ensures room { result ≡ Err StepError.NoMemory → HasRoom (share_of (view pass.new)) }
{
    let mut turn = lock.enter(rt, pass);
    let caller = turn.caller();
    let answer = turn.state().serve(alloc, caller, call, bytes);
    if has_entry(&answer) {
        turn.commit();
        return answer;
    }
    turn.leave();
    answer
}
