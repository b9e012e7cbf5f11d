ghost use Rattle.std.specs.Prelude.{◌≡◌, ◌≤◌, [], length, vec_capacity};
ghost use Rattle.std.specs.List.{All};
ghost use Rattle.account_lock.specs.Passes.{limit_of};

use crate::ending::{end_each, first_unjoined};
use crate::faults::{EnlistError, HostClose, HostFault};
use crate::locking::{Locked, lock_each};
use crate::set::SeatSet;
use account_ledger::AccountState;
use account_lock::{Lock, Pass};
use keeper::Keeper;
use std::alloc::Global;

/// Several accounts, at most 32, each under a lock of its own.
#[derive(Drop)]
pub struct Host<K: Keeper> {
    pub(crate) locks: Vec<Lock<AccountState<K>>>,
    callers: u32,
    // Empty. It has room for all accounts, so the end of a host takes no memory.
    spare: Vec<AccountState<K>>,
    ghost limits: { All (λ lock. limit_of lock ≡ callers) locks.items },
    ghost empty: { spare.items ≡ [] },
    ghost room: { length locks.items ≤ vec_capacity spare },
    ghost few: { length locks.items ≤ 32 },
}

impl<K: Keeper> Host<K> {
    ghost use Rattle.std.specs.Prelude.{◌<◌, true, false, map, IfOk, IfErr, OnErr};
    ghost use Rattle.std.specs.List.{AllZip};
    ghost use Rattle.account_lock.specs.Views.{having_made, newcomer};
    ghost use Rattle.account_host.specs.Sets.{AreFirst, AreLater, AreWhole, IsUnjoined, joined_each, views, views_of};
    ghost use Rattle.account_host.specs.Seating.{IsSetOf, callers_of};
    ghost use Rattle.account_host.specs.Beginning.{GivenBack, IsFirstOf, IsFresh};
    ghost use Rattle.account_host.specs.Enlisting.{HasFull, HaveRoom, MayEnlist};
    ghost use Rattle.account_host.specs.Closing.{Closes};

    /// A host of these accounts, at most 32, whose histories are empty, and its first set of
    /// passes. Of each account the host may make at most `callers` passes, the first included.
    ///
    /// # Errors
    ///
    /// Memory ran out. The accounts are handed back in their order, each with its origin and
    /// without an entry.
    pub fn new(
        alloc: Global,
        mut states: Vec<AccountState<K>>,
        callers: u32,
    ) -> Result<(Host<K>, SeatSet), HostFault<K>>
    where
        K: Drop,
        requires callers { 0 < callers }
        requires few { length states.items ≤ 32 }
        requires fresh { All IsFresh states.items }
        ensures set { IfOk result (λ made. IsSetOf made.0 made.1) }
        ensures callers { IfOk result (λ made. callers_of made.0 ≡ callers) }
        ensures accounts { IfOk result (λ made.
            AllZip IsFirstOf states.items (views_of made.1)) }
        ensures first { IfOk result (λ made. AreFirst (views_of made.1)) }
        ensures refused { IfErr result (λ fault. AllZip GivenBack states.items fault.states.items) }
    {
        states.reverse();
        match lock_each(alloc, states, callers) {
            Ok(
                Locked {
                    locks,
                    passes,
                    spare,
                },
            ) => {
                let host = Host {
                    locks,
                    callers,
                    spare,
                };
                Ok((host, SeatSet { passes }))
            }
            Err(HostFault { mut states }) => {
                states.reverse();
                Err(HostFault { states })
            }
        }
    }

    /// Makes one more set of passes, one of each account. Each has seen what the first set's pass
    /// of its account has seen. The memory for them is taken before any pass is made.
    ///
    /// # Errors
    ///
    /// `Full` exactly if of some account as many passes were made as may be. `NoMemory` if memory
    /// runs out. No pass is made then, in either case.
    pub fn enlist(&self, alloc: Global, first: &mut SeatSet) -> Result<SeatSet, EnlistError>
        requires set { IsSetOf self.now first.old }
        requires first { AreFirst (views_of first.old) }
        ensures first { IfOk result (λ set. IsSetOf self.now first.new
            × (views_of first.new ≡ map having_made (views_of first.old))) }
        ensures made { IfOk result (λ set. IsSetOf self.now set
            × (views_of set ≡ map newcomer (views_of first.old))) }
        ensures may { MayEnlist (callers_of self.now) (views_of first.old) result }
        ensures same { OnErr result (first.new ≡ first.old) }
    {
        if self.is_full(first) {
            return Err(EnlistError::Full {
                limit: self.callers,
            });
        }
        let passes = Vec::with_capacity(alloc, first.passes.len())?;
        Ok(self.enlist_each(first, passes))
    }

    /// Whether of some account as many passes were made as may be.
    fn is_full(&self, first: &SeatSet) -> bool
        requires { AreFirst (views_of first.now) }
        ensures full { result ≡ true → HasFull self.now.callers (views_of first.now) }
        ensures room { result ≡ false → HaveRoom self.now.callers (views_of first.now) }
    {
        for account in 0..first.passes.len() {
            if first.passes[account].made() == self.callers {
                return true;
            }
        }
        false
    }

    /// Makes one more pass of each account. No account is full, and the list has room for the
    /// passes.
    fn enlist_each(&self, first: &mut SeatSet, mut passes: Vec<Pass>) -> SeatSet
        requires set { IsSetOf self.now first.old }
        requires first { AreFirst (views_of first.old) }
        requires not_full { HaveRoom self.now.callers (views_of first.old) }
        requires empty { passes.items ≡ [] }
        requires room { length first.old.passes.items ≤ vec_capacity passes }
        ensures first { IsSetOf self.now first.new }
        ensures first_views { views_of first.new ≡ map having_made (views_of first.old) }
        ensures set { IsSetOf self.now result }
        ensures views { views_of result ≡ map newcomer (views_of first.old) }
    {
        for account in 0..self.locks.len() {
            let Ok(pass) = self.locks[account].enlist(&mut first.passes[account]) else {
                unreachable!()
            };
            passes.push_reserved(pass);
        }
        SeatSet { passes }
    }

    /// Joins another set into this set, account by account. Each pass of this set then stands for
    /// both.
    pub fn join(&self, set: &mut SeatSet, other: SeatSet)
        requires set { IsSetOf self.now set.old }
        requires other { IsSetOf self.now other }
        requires later { AreLater (views_of other) }
        ensures set { IsSetOf self.now set.new }
        ensures joined { views_of set.new ≡ joined_each (views_of set.old) (views_of other) }
    {
        let SeatSet { mut passes } = other;
        while let Some(pass) = passes.pop() {
            let account = passes.len();
            self.locks[account].join(&mut set.passes[account], pass);
        }
    }

    /// Ends the host with its first set, and returns the accounts with their whole histories, in
    /// their order. It looks at all accounts before it closes one, and takes no memory.
    ///
    /// # Errors
    ///
    /// Of some account more passes were made than the set's pass stands for. The fault names the
    /// first such account. The host and the set are handed back.
    pub fn close(self, set: SeatSet) -> Result<Vec<AccountState<K>>, HostClose<K>>
    where
        K: Drop,
        requires set { IsSetOf self set }
        requires first { AreFirst (views_of set) }
        ensures all { IfOk result (λ states. AreWhole (views_of set)) }
        ensures closed { IfOk result (λ states. AllZip Closes (views_of set) states.items) }
        ensures unjoined { IfErr result (λ fault. IsUnjoined (views_of set) fault.account
            fault.held fault.made) }
        ensures refused { IfErr result (λ fault. (fault.host ≡ self) × (fault.set ≡ set)) }
    {
        if let Some(account) = first_unjoined(&set) {
            let pass = &set.passes[account as usize];
            let held = pass.held();
            let made = pass.made();
            return Err(HostClose {
                host: self,
                set,
                account,
                held,
                made,
            });
        }
        let Host { locks, spare, .. } = self;
        let SeatSet { passes } = set;
        let mut states = end_each(locks, passes, spare);
        states.reverse();
        Ok(states)
    }
}
