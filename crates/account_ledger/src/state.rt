// The state of an account.
ghost use Rattle.std.specs.Prelude.{◌≡◌, ◌<◌, ◌↔◌, ℕ, nat_eq, IsTrue, length, IfOk, IfErr, OnOk, IsErr};
ghost use Rattle.quota_units.specs.Causes.{HasCause, Rose};
ghost use Rattle.quota_roots.specs.Setups.{IsSound};
ghost use Rattle.keeper.specs.Calls.{Changes, Due, OnFiles, SpendsDue, both};
ghost use Rattle.account_core.specs.Forms.{HasForm};
ghost use Rattle.account_core.specs.Legality.{HasBytes, MayBeAsked};
ghost use Rattle.account_core.specs.Logs.{Serves};
ghost use Rattle.account_opening.specs.Admitting.{IsRefused, MayOpen};
ghost use Rattle.root_ledgers.specs.declared.book.Standing.TheVariants.{Settled};
ghost use Rattle.account_ledger.specs.Performing.{ListsFor, PerformsLedgers, PerformsRows, UsesDue};
ghost use Rattle.account_ledger.specs.Settling.{LedgersStay, SettlesSome, SparesLedgers};
ghost use Rattle.account_ledger.specs.States.{IsAccount, IsInOrder, IsOpened, OfAccount, Opened, ServesNext, entry_fault};
ghost use Rattle.account_ledger.specs.Stores.{NoneFalls, standing_at, usage_at};
ghost use Rattle.account_ledger.specs.Writing.{Spares};
ghost use Rattle.account_core.specs.History.{NeverFull};

use crate::counts::Counts;
use crate::live::LiveAccount;
use crate::opening::OpenFault;
use account_core::{Call, Entry, Reply, StepError};
use account_opening::{OpenError, admit_files};
use keeper::Keeper;
use quota_roots::Setup;
use quota_units::Totals;
use root_ledgers::{RootLedgers, Standing};
use std::alloc::Global;
use std::marker::Model;
use std::snapshot::Snapshot;

/// An account over a keeper: its files, the ledgers of its quota roots, and the history of its
/// calls.
///
/// Contracts see the account's store, what the account was opened with, and its history. The store
/// has what the keeper tells and counts, and the standing of each root.
#[derive(Drop)]
pub struct AccountState<K: Keeper> {
    pub(crate) live: LiveAccount<K>,
    pub(crate) history: Vec<Entry>,
    journal: u32,
    // What the account was opened with, for contracts alone.
    opened: Snapshot<K>,
    setup: Snapshot<Setup>,
}

/// Whether the entry of a call with this answer has fault. `None` if the call has no entry: memory
/// ran out, or the journal is full.
fn entry_fault(answer: &Result<Reply, StepError>) -> Option<bool>
    ensures { result ≡ entry_fault answer.now }
{
    match answer {
        Ok(_) => Some(false),
        Err(StepError::Store) => Some(true),
        Err(_) => None,
    }
}

impl<K: Keeper> Model for AccountState<K> {
    ghost use Rattle.account_ledger.specs.Lives.{store_of};
    ghost use Rattle.account_ledger.specs.Opening.{opening_of};
    ghost use Rattle.account_ledger.specs.States.{State, InOrder};

    ghost Value = { State };

    ghost view = { λ a. record {
      store = store_of a.live;
      origin = record {
        roots = a.live.roots;
        journal = a.journal;
        epoch = a.live.epoch;
        account = opening_of a.setup.value a.live.epoch (K.told a.opened.value);
      };
      history = a.history.items;
      first_faults = K.faults a.opened.value;
    } };

    ghost invariant = { λ a. InOrder (K.told a.opened.value)
        (K.faults a.opened.value) a.setup.value a.journal a.live a.history.items };
}

impl<K: Keeper> AccountState<K> {
    /// Opens the account that the keeper's files make. Its history is empty, and each of its roots
    /// is in doubt.
    ///
    /// The mailboxes are listed one after another, and the files of each are looked through. If
    /// nothing prevents opening the account, the ledgers are read then.
    ///
    /// # Errors
    ///
    /// `Store` if the store failed. `TooManyMessages` if the mailboxes have more than 1048576
    /// files. `DoubleName` if two files of a mailbox have one base; it names the first such base.
    /// `EpochUsed` if the base of a file begins with the epoch and a dot and ends with `.quotad`;
    /// it names the first such base. `NoMemory` if memory runs out. The error gives the keeper
    /// back, with its files as they were.
    pub fn open(
        alloc: Global,
        keeper: K,
        setup: Setup,
        epoch: u64,
    ) -> Result<AccountState<K>, OpenFault<K>>
        requires { IsSound setup }
        ensures opened { IfOk result
            (λ state. IsOpened (K.told keeper) (K.faults keeper) setup epoch state) }
        ensures admitted { IfOk result
            (λ state. Changes (OnFiles (MayOpen setup epoch)) (K.told keeper) state.store.told) }
        ensures order { IfOk result IsInOrder }
        ensures refused { IfErr result (λ fault. Changes
            (OnFiles (IsRefused setup epoch fault.cause)) (K.told keeper) (K.told fault.keeper)) }
        ensures cause { IfErr result (λ fault.
            HasCause (fault.cause ≡ OpenError.Store) (K.faults keeper) (K.faults fault.keeper)) }
        ensures appends { IfOk result
            (λ state. state.store.append_faults ≡ K.append_faults keeper) }
        ensures appends_then { IfErr result
            (λ fault. K.append_faults fault.keeper ≡ K.append_faults keeper) }
        ensures due { IfOk result (λ state. Due ⊥ (K.faults keeper) (K.append_faults keeper)
            state.store.faults state.store.append_faults (K.told keeper) state.store.told) }
        ensures due_then { IfErr result (λ fault. SpendsDue K.told (both K.faults K.append_faults)
            (fault.cause ≡ OpenError.Store) keeper fault.keeper) }
    {
        let mut keeper = keeper;
        let opened = Snapshot::of(&keeper);
        let as_set_up = Snapshot::of(&setup);
        let limits = match admit_files(alloc, &mut keeper, &setup, epoch) {
            Ok(limits) => limits,
            Err(cause) => return Err(OpenFault { cause, keeper }),
        };
        // There are at most four roots.
        let _count = setup.roots.count();
        let ledgers = match RootLedgers::in_doubt(alloc, limits) {
            Ok(ledgers) => ledgers,
            Err(_) => {
                return Err(OpenFault {
                    cause: OpenError::NoMemory,
                    keeper,
                });
            }
        };
        let Setup {
            roots,
            mailboxes,
            journal,
            ..
        } = setup;
        let counts = Counts {
            deliveries: 0,
            generation: 0,
        };
        let live = LiveAccount {
            keeper,
            roots,
            mailboxes,
            epoch,
            ledgers,
            counts,
        };
        let state = AccountState {
            live,
            history: Vec::new(alloc),
            journal,
            opened,
            setup: as_set_up,
        };
        state.show_in_order();
        Ok(state)
    }

    /// How many entries the history has.
    pub fn calls(&self) -> u32
        ensures { result ≡ length self.now.history }
    {
        self.history.len() as u32
    }

    /// How many roots the account has: 1 to 4.
    pub fn root_count(&self) -> u32
        ensures { result ≡ length self.now.origin.roots }
    {
        self.live.roots.count()
    }

    /// The standing of the root of this number: settled, or in doubt.
    pub fn standing(&self, root: u32) -> Standing
        requires { root < length self.now.origin.roots }
        ensures { result ≡ standing_at self.now.store.standings root }
    {
        self.live.show_whole();
        self.live.ledgers.books()[root as usize].standing
    }

    /// Serves a call of this caller. The call is a delivery, a check, a removal, a change of flags,
    /// a move, a change of limits, a question about the quota of a root, the roots of a mailbox or
    /// the status of a mailbox, the beginning of a scan, or a part of a scan. The beginning of a
    /// scan lists no mailbox, and a part lists only its own mailbox.
    ///
    /// `bytes` has the octets of the message that is delivered, at most 67108864. It is empty for
    /// the other calls.
    ///
    /// All memory is taken before a file is changed, except the memory that the keeper needs to put
    /// or rename the file of a message.
    ///
    /// An accepted delivery, a removal or a move writes one line into the ledger of each settled
    /// root whose usage changes. If a ledger has no room for its line, the call folds that ledger.
    /// If the write fails, the call still gets its reply, and the root of that ledger is in doubt.
    ///
    /// # Errors
    ///
    /// `JournalFull` exactly if the history has as many entries as the setup's journal allows.
    /// Nothing changes then. `Store` only if the store failed in this call. The call's entry has
    /// fault then, and the messages and the limits are as before. `NoMemory` if memory runs out.
    /// There is no entry then, and the messages and the limits are as before. All roots and their
    /// ledgers are as before too, unless memory ran out while the keeper was putting or renaming
    /// the file: by then a delivery or a move has settled all roots that it needs.
    pub fn serve(
        &mut self,
        alloc: Global,
        caller: u32,
        call: Call,
        bytes: &[u8],
    ) -> Result<Reply, StepError>
        requires asked { MayBeAsked call }
        requires bytes { HasBytes call bytes.now }
        ensures opened { Opened self.old self.new }
        // The call follows the old history and gets its answer. The new history has its entry, if
        // it has one.
        ensures serves { Serves self.old.origin caller self.old.history call result
            self.new.history }
        ensures form { IfOk result (HasForm self.old.store.roots self.old.store.mailboxes call) }
        ensures ledgers { PerformsLedgers
            (IsAccount self.old) call result self.old.store self.new.store }
        ensures rows { PerformsRows call bytes.now result self.old.store self.new.store }
        ensures spared { result ≡ Err StepError.NoMemory
            → Spares call self.old.store self.new.store }
        ensures due { UsesDue result self.old.store self.new.store }
        ensures later { NoneFalls self.old.store self.new.store }
        ensures cause { result ≡ Err StepError.Store
            → Rose self.old.store.faults self.new.store.faults }
        ensures lists { ListsFor call self.old.store.lists self.new.store.lists }
        ensures full { (limit : ℕ) → (result ≡ Err (StepError.JournalFull limit))
            ↔ ((length self.old.history ≡ self.old.origin.journal)
            × (limit ≡ self.old.origin.journal)) }
        ensures unchanged { (limit : ℕ) → result ≡ Err (StepError.JournalFull limit)
            → self.new ≡ self.old }
        ensures order { IsInOrder self.new }
    {
        self.show_in_order();
        if self.is_full() {
            return Err(StepError::JournalFull {
                limit: self.journal,
            });
        }
        let answer = self.serve_next(alloc, caller, call, bytes);
        self.show_in_order();
        answer
    }

    /// Serves a call and records it. The journal has room for its entry.
    fn serve_next(
        &mut self,
        alloc: Global,
        caller: u32,
        call: Call,
        bytes: &[u8],
    ) -> Result<Reply, StepError>
        requires asked { MayBeAsked call }
        requires bytes { HasBytes call bytes.now }
        requires not_full { length self.old.history < self.old.origin.journal }
        ensures { ServesNext caller call bytes.now result self.old self.new }
    {
        self.live.show_whole();
        self.history.reserve(1)?;
        let answer = self.live.perform(alloc, &call, bytes);
        let Some(fault) = entry_fault(&answer) else {
            return answer;
        };
        self.history.push_reserved(Entry {
            caller,
            call,
            fault,
        });
        answer
    }

    /// Whether the history has as many entries as the journal allows.
    fn is_full(&self) -> bool
        ensures { IsTrue result ↔ (length self.now.history ≡ self.now.origin.journal) }
    {
        self.history.len() >= self.journal as usize
    }

    /// Settles the root of this number if it is in doubt, and gives its usage in octets and
    /// messages. The history gets no entry.
    ///
    /// # Errors
    ///
    /// `Store` if the store failed, and `NoMemory` if memory runs out. The root and its ledger are
    /// as before then.
    pub fn usage(&mut self, alloc: Global, root: u32) -> Result<Totals, StepError>
        requires { root < length self.old.origin.roots }
        ensures opened { Opened self.old self.new }
        ensures history { self.new.history ≡ self.old.history }
        ensures usage { IfOk result (λ totals.
            OfAccount self.old (λ account. totals ≡ usage_at self.old.origin.roots root account)) }
        ensures settled { OnOk result (standing_at self.new.store.standings root ≡ Settled) }
        ensures settles { SettlesSome (IsAccount self.old)
            (nat_eq root) self.old.store self.new.store }
        ensures stays { IsErr result → LedgersStay self.old.store self.new.store }
        ensures spared { SparesLedgers result self.old.store self.new.store }
        ensures due { UsesDue result self.old.store self.new.store }
        ensures cause { HasCause
            (result ≡ Err StepError.Store) self.old.store.faults self.new.store.faults }
        ensures never_full { NeverFull result }
        ensures order { IsInOrder self.new }
    {
        self.live.show_whole();
        let usage = self.live.usage(alloc, root);
        self.show_in_order();
        usage
    }

    /// Ends the account and gives its keeper back as it is.
    pub fn into_keeper(self) -> K
        ensures told { K.told result ≡ self.store.told }
        ensures faults { K.faults result ≡ self.store.faults }
        ensures append_faults { K.append_faults result ≡ self.store.append_faults }
        ensures lists { K.lists result ≡ self.store.lists }
    {
        let AccountState { live, .. } = self;
        let LiveAccount { keeper, .. } = live;
        keeper
    }

    /// Shows contracts that the state is in order between any two calls.
    ///
    /// It exists for proofs alone.
    pub fn show_in_order(&self)
        ensures { IsInOrder self.now }
    {
        self.live.show_whole();
    }
}
