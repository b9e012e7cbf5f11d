ghost use Rattle.std.specs.List.{All};
ghost use Rattle.account_host.specs.Sets.{views};
ghost use Rattle.account_host.specs.Seating.{AreSeated, IsWithin};

use crate::host::Host;
use crate::seat::ask_in_turn;
use crate::set::SeatSet;
use account_core::{Call, Reply, StepError};
use desk::Desk;
use keeper::Keeper;
use std::alloc::Global;
use std::sync::Wait;

/// A caller's seats: a desk of all accounts of a host. Each call waits for the caller's turn at the
/// account that it asks, and touches no other account.
#[derive(Drop)]
pub struct Seats<'a, K: Keeper, R: Wait> {
    rt: &'a R,
    pub(crate) host: &'a Host<K>,
    pub(crate) set: SeatSet,
    ghost seated: { AreSeated host.now.locks.items set.passes.items },
    ghost within: { All IsWithin (views set.passes.items) },
}

impl<'a, K: Keeper, R: Wait> Seats<'a, K, R> {
    ghost use Rattle.std.specs.Prelude.{◌≡◌};
    ghost use Rattle.account_host.specs.Seating.{IsSetOf};
    ghost use Rattle.account_host.specs.Leading.{host_of, set_of};

    /// The seats of a caller with this set of passes, which is of this host. `rt` lets the calls
    /// wait.
    pub fn new(rt: &'a R, host: &'a Host<K>, set: SeatSet) -> Seats<'a, K, R>
        requires set { IsSetOf host.now set }
        ensures host { host_of result ≡ host.now }
        ensures set { set_of result ≡ set }
    {
        Seats { rt, host, set }
    }

    /// Ends the seats and gives the set of passes back as it is.
    pub fn finish(self) -> SeatSet
        ensures set { result ≡ set_of self.entry }
        ensures host { IsSetOf (host_of self.entry) result }
    {
        let Seats { set, .. } = self;
        set
    }
}

impl<K: Keeper, R: Wait> Desk for Seats<'_, K, R> {
    ghost use Rattle.std.specs.Prelude.{◌≡◌, ◌<◌, length, set, Err};
    ghost use Rattle.account_core.specs.Legality.{HasBytes};
    ghost use Rattle.desk.specs.Shares.{AreWithinJournals, share_at};
    ghost use Rattle.desk.specs.Asking.{Asks, IsDeskCall};
    ghost use Rattle.account_host.specs.Sets.{views_of};
    ghost use Rattle.account_host.specs.Seating.{HasRoom};
    ghost use Rattle.account_host.specs.Leading.{GoesAlong, Leads, leads_itself, leads_on, set_of, shares_of};

    ghost shares = { shares_of };

    ghost leads = { Leads };

    fn accounts(&self) -> u32
        ensures count { result ≡ length (shares_of self.now) }
        ensures within { AreWithinJournals (shares_of self.now) }
    {
        self.set.passes.len() as u32
    }

    /// Asks the account of this number, in a turn of its own.
    ///
    /// # Errors
    ///
    /// `Store` if the account's store failed in this call. The call's entry has fault then.
    /// `JournalFull` exactly if the history had as many entries as its journal takes when the turn
    /// came. `NoMemory` if memory runs out. The call has no entry then, in either case.
    fn ask(
        &mut self,
        alloc: Global,
        account: u32,
        call: Call,
        bytes: &[u8],
    ) -> Result<Reply, StepError>
        requires account { account < length (shares_of self.old) }
        requires asked { IsDeskCall call }
        requires bytes { HasBytes call bytes.now }
        // What every desk promises.
        ensures asks { Asks (share_at (shares_of self.old) account) call result
            (share_at (shares_of self.new) account) }
        ensures others { shares_of self.new
            ≡ set (shares_of self.old) account (share_at (shares_of self.new) account) }
        ensures within { AreWithinJournals (shares_of self.new) }
        ensures leads { Leads self.old self.new }
        // The pass of this account goes along, and all other passes stay as they are. If memory ran
        // out, the history had room.
        ensures passes { GoesAlong account
            (views_of (set_of self.old)) (views_of (set_of self.new)) }
        ensures room { result ≡ Err StepError.NoMemory
            → HasRoom (share_at (shares_of self.new) account) }
    {
        let lock = &self.host.locks[account as usize];
        let pass = &mut self.set.passes[account as usize];
        ask_in_turn(self.rt, alloc, lock, pass, call, bytes)
    }

    ghost leads_itself = { leads_itself };

    ghost leads_on = { leads_on };
}
