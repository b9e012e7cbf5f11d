ghost use Rattle.std.specs.Prelude.{◌≡◌, ◌<◌, ◌↔◌, nat_lt, is_some, if◌then◌else◌, length, position, bytes_eq, Some, None, IfOk, IfErr, IfSome, IsErrOf};
ghost use Rattle.std.specs.Option.{option_map};
ghost use Rattle.quota_units.specs.Causes.{HasCause, next_count};
ghost use Rattle.keeper.specs.Calls.{Changes};
ghost use Rattle.keeper.specs.Accounts.{Opens, Closes, keeper_in, with_keeper};
ghost use Rattle.keeper.specs.Memory.{told_of, forgiven};

use crate::{KeepError, MemKeeper, Stores};
use quota_units::Name;
use std::alloc::Global;
use std::marker::Model;

/// Stores of keepers in memory. If a name occurs twice, the first account of that name counts.
#[derive(Debug, Drop)]
pub struct MemStores {
    keepers: Vec<(Name, Option<MemKeeper>)>,
    faults: u64,
}

impl Model for MemStores {
    ghost use Rattle.keeper.specs.Memory.{MemStores};

    ghost Value = { MemStores };

    ghost view = { λ s. record { accounts = s.keepers.items; faults = s.faults } };
}

impl MemStores {
    /// Stores of these accounts, by name, with these keepers. An account without a keeper can't be
    /// opened.
    pub fn new(keepers: Vec<(Name, Option<MemKeeper>)>) -> MemStores
        ensures { result ≡ record { accounts = keepers.items; faults = 0 } }
    {
        MemStores { keepers, faults: 0 }
    }
}

/// The place of the first account of this name.
fn index_of(keepers: &[(Name, Option<MemKeeper>)], name: &[u8]) -> Option<usize>
    ensures value { result ≡ position (λ account. bytes_eq account.0 name.now) keepers.now }
    ensures within { IfSome result (λ at. at < length keepers.now) }
{
    keepers
        .iter()
        .position(|account| account.0.as_slice() == name)
}

/// Takes the keeper of this name out.
#[tactic(auto, using(crate::proofs::AccountLemmas::with_at, crate::proofs::AccountLemmas::in_at, crate::proofs::AccountLemmas::with_nowhere, crate::proofs::AccountLemmas::in_nowhere))]
fn take(keepers: &mut Vec<(Name, Option<MemKeeper>)>, name: &[u8]) -> Option<MemKeeper>
    ensures value { result ≡ keeper_in name.now keepers.old.items }
    ensures after { keepers.new.items ≡ with_keeper name.now None keepers.old.items }
{
    match index_of(keepers, name) {
        None => None,
        Some(at) => {
            let account = &mut keepers[at];
            account.1.take()
        }
    }
}

/// Puts a keeper in the place of this name, or drops it if no account has the name.
#[tactic(auto, using(crate::proofs::AccountLemmas::with_at, crate::proofs::AccountLemmas::with_nowhere))]
fn put(keepers: &mut Vec<(Name, Option<MemKeeper>)>, name: &[u8], keeper: MemKeeper)
    ensures { keepers.new.items ≡ with_keeper name.now (Some keeper) keepers.old.items }
{
    if let Some(at) = index_of(keepers, name) {
        let account = &mut keepers[at];
        account.1 = Some(keeper);
    }
}

impl Stores for MemStores {
    type K = MemKeeper;

    ghost told = { λ s. Some s.accounts };

    ghost faults = { λ s. s.faults };

    #[tactic(auto, using(crate::proofs::AccountLemmas::without_none))]
    fn open(&mut self, _alloc: Global, account: &[u8]) -> Result<MemKeeper, KeepError>
        ensures accounts { Changes (Opens (λ kept keeper. (Some (told_of keeper) ≡ Some
            (told_of kept)) × (keeper.plan.made.list ≡ kept.plan.made.list)) account.now result)
            (Some self.old.accounts) (Some self.new.accounts) }
        ensures fresh { IfOk result (λ keeper. (keeper.plan.faults ≡ 0)
            × (keeper.plan.append_faults ≡ 0)) }
        ensures cause { HasCause (IsErrOf result KeepError.Failed) self.old.faults self.new.faults }
        ensures fails { IsErrOf result KeepError.Failed
            ↔ (keeper_in account.now self.old.accounts ≡ None) }
        ensures memory { IfErr result (λ e. e ≡ KeepError.Failed) }
        ensures count { self.new.faults ≡ (if is_some (keeper_in account.now self.old.accounts)
            then self.old.faults else next_count self.old.faults) }
        ensures keeper { IfOk result (λ keeper.
            option_map forgiven (keeper_in account.now self.old.accounts) ≡ Some keeper) }
    {
        match take(&mut self.keepers, account) {
            Some(mut keeper) => {
                keeper.forget_faults();
                Ok(keeper)
            }
            None => {
                self.faults = self.faults.saturating_add(1);
                Err(KeepError::Failed)
            }
        }
    }

    fn close(&mut self, account: &[u8], keeper: MemKeeper)
        ensures accounts { Changes (Closes account.now keeper) (Some self.old.accounts)
            (Some self.new.accounts) }
        ensures cause { HasCause (0 < keeper.plan.faults) self.old.faults self.new.faults }
        ensures count { self.new.faults ≡ (if nat_lt 0 keeper.plan.faults
            then next_count self.old.faults else self.old.faults) }
    {
        if keeper.faults() > 0 {
            self.faults = self.faults.saturating_add(1);
        }
        put(&mut self.keepers, account, keeper);
    }
}
