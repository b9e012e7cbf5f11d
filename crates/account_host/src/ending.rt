// The end of several locks, and what keeps a host from ending.
ghost use Rattle.std.specs.Prelude.{◌≤◌, ◌+◌, length, IfSome, IfNone, vec_capacity};
ghost use Rattle.std.specs.List.{AllZip};
ghost use Rattle.account_lock.specs.Passes.{IsOf};
ghost use Rattle.account_host.specs.Sets.{AreFirst, AreWhole, IsUnjoined, view_at, views, views_of};
ghost use Rattle.account_host.specs.Closing.{Ends};

use crate::set::SeatSet;
use account_ledger::AccountState;
use account_lock::{Lock, Pass};
use keeper::Keeper;

/// The first account of which more passes were made than the set's pass stands for.
pub(crate) fn first_unjoined(set: &SeatSet) -> Option<u32>
    requires first { AreFirst (views_of set.now) }
    requires few { length set.now.passes.items ≤ 32 }
    ensures unjoined { IfSome result (λ account. IsUnjoined (views_of set.now) account
        (view_at (views_of set.now) account).held
        (view_at (views_of set.now) account).made) }
    ensures whole { IfNone result (AreWhole (views_of set.now)) }
{
    for account in 0..set.passes.len() {
        let pass = &set.passes[account];
        if pass.held() < pass.made() {
            return Some(account as u32);
        }
    }
    None
}

/// Closes the locks, the last one first, and puts their accounts in that order after those that are
/// there. Each lock is closed with the pass at its place, the first one, which stands for all.
pub(crate) fn end_each<K: Keeper + Drop>(
    mut locks: Vec<Lock<AccountState<K>>>,
    mut passes: Vec<Pass>,
    mut states: Vec<AccountState<K>>,
) -> Vec<AccountState<K>>
    requires seated { AllZip IsOf locks.items passes.items }
    requires first { AreFirst (views passes.items) }
    requires whole { AreWhole (views passes.items) }
    requires room { length states.items + length locks.items ≤ vec_capacity states }
    ensures { Ends passes.items states.items result.items }
{
    while let Some(lock) = locks.pop() {
        let pass = passes.pop().unwrap();
        let Ok(state) = lock.close(pass) else {
            unreachable!()
        };
        states.push_reserved(state);
    }
    states
}
