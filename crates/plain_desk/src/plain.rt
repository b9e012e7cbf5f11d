ghost use Rattle.std.specs.Prelude.{◌≡◌, ◌≢◌, ◌≤◌, ◌<◌, ◌↔◌, ℕ, length, map, set, IfSome};
ghost use Rattle.std.specs.List.{All};
ghost use Rattle.quota_units.specs.Causes.{Rose};
ghost use Rattle.account_core.specs.Legality.{HasBytes};
ghost use Rattle.account_core.specs.Logs.{Serves};
ghost use Rattle.account_ledger.specs.Performing.{PerformsLedgers, PerformsRows, UsesDue};
ghost use Rattle.account_ledger.specs.States.{IsAccount};
ghost use Rattle.account_ledger.specs.Writing.{Spares};
ghost use Rattle.desk.specs.Shares.{AreWithinJournals, share_at};
ghost use Rattle.desk.specs.Asking.{Asks, IsDeskCall};
ghost use Rattle.desk.proofs.Lending.{each_itself, each_on};
ghost use Rattle.plain_desk.specs.Owning.{AreOwned, IsFresh, share_of, state_at};
ghost use Rattle.plain_desk.specs.Continuing.{Continues, EachContinues, continues_itself, continues_on};

use account_core::{Call, Reply, StepError};
use account_ledger::AccountState;
use desk::Desk;
use keeper::Keeper;
use std::alloc::Global;
use std::marker::Model;

/// Accounts that one owner asks, as caller 0 of each. Contracts see the list of their states.
#[derive(Drop)]
pub struct PlainDesk<K: Keeper> {
    states: Vec<AccountState<K>>,
}

impl<K: Keeper> Model for PlainDesk<K> {
    ghost use Rattle.std.specs.Prelude.{List};
    ghost use Rattle.account_ledger.specs.States.{State};
    ghost use Rattle.plain_desk.specs.Owning.{AreOwned};

    ghost Value = { List State };

    ghost view = { λ desk. desk.states.items };

    ghost invariant = { λ desk. AreOwned desk.states.items };
}

impl<K: Keeper> PlainDesk<K> {
    /// A desk of these accounts, at most 32, whose histories are empty.
    pub fn new(states: Vec<AccountState<K>>) -> PlainDesk<K>
        requires fresh { All IsFresh states.items }
        requires few { length states.items ≤ 32 }
        ensures { result ≡ states.items }
    {
        for state in &states {
            state.show_in_order();
        }
        PlainDesk { states }
    }

    /// Ends the desk and gives its accounts back as they are, in their order.
    pub fn into_states(self) -> Vec<AccountState<K>>
        ensures states { result.items ≡ self }
        ensures owned { AreOwned self }
    {
        let PlainDesk { states } = self;
        states
    }

    /// Shows contracts that each account is in order, and that each entry of its history is the
    /// owner's.
    ///
    /// It exists for proofs alone.
    pub fn show_owned(&self)
        ensures { AreOwned self.now }
    {
        let _ = &self.states;
    }
}

impl<K: Keeper> Desk for PlainDesk<K> {
    ghost shares = { map share_of };

    ghost leads = { EachContinues };

    fn accounts(&self) -> u32
        ensures count { result ≡ length (map share_of self.now) }
        ensures within { AreWithinJournals (map share_of self.now) }
    {
        self.states.len() as u32
    }

    /// Asks the account of this number, as its owner.
    ///
    /// # Errors
    ///
    /// `JournalFull` exactly if the history has as many entries as its journal takes. Nothing
    /// changes then. `Store` only if the account's keeper failed in this call, and never if none of
    /// its failures is due. The call's entry has fault then. `NoMemory` if memory runs out. The
    /// call has no entry then.
    fn ask(
        &mut self,
        alloc: Global,
        account: u32,
        call: Call,
        bytes: &[u8],
    ) -> Result<Reply, StepError>
        requires account { account < length (map share_of self.old) }
        requires asked { IsDeskCall call }
        requires bytes { HasBytes call bytes.now }
        // What every desk promises.
        ensures asks { Asks (share_at (map share_of self.old) account) call result
            (share_at (map share_of self.new) account) }
        ensures others { map share_of self.new
            ≡ set (map share_of self.old) account (share_at (map share_of self.new) account) }
        ensures within { AreWithinJournals (map share_of self.new) }
        ensures leads { EachContinues self.old self.new }
        // Each history has the owner's entries alone, and all other accounts stay as they are.
        ensures owned { AreOwned self.new }
        ensures states { self.new ≡ set self.old account (state_at self.new account) }
        ensures serves { Serves (state_at self.old account).origin 0
            (state_at self.old account).history call result (state_at self.new account).history }
        ensures rows { PerformsRows call bytes.now result
            (state_at self.old account).store (state_at self.new account).store }
        ensures ledgers { PerformsLedgers (IsAccount (state_at self.old account)) call result
            (state_at self.old account).store (state_at self.new account).store }
        ensures spared { result ≡ Err StepError.NoMemory → Spares call
            (state_at self.old account).store (state_at self.new account).store }
        ensures cause { result ≡ Err StepError.Store → Rose (state_at self.old account).store.faults
            (state_at self.new account).store.faults }
        ensures due { UsesDue result
            (state_at self.old account).store (state_at self.new account).store }
        ensures none_due { IfSome (state_at self.old account).store.told
            (λ told. told.due ≡ 0 → result ≢ Err StepError.Store) }
        ensures full { (limit : ℕ) → (result ≡ Err (StepError.JournalFull limit))
            ↔ ((length (state_at self.old account).history
            ≡ (state_at self.old account).origin.journal)
            × (limit ≡ (state_at self.old account).origin.journal)) }
        ensures unchanged { (limit : ℕ) → result ≡ Err (StepError.JournalFull limit)
            → self.new ≡ self.old }
    {
        let state = &mut self.states[account as usize];
        state.serve(alloc, 0, call, bytes)
    }

    ghost leads_itself = { each_itself Continues continues_itself };

    ghost leads_on = { each_on Continues continues_on };
}
