ghost use Rattle.std.specs.Prelude.{◌≡◌, ◌<◌, List, length, set};
ghost use Rattle.account_core.specs.Legality.{HasBytes};
ghost use Rattle.desk.specs.Shares.{AreWithinJournals, Share, share_at};
ghost use Rattle.desk.specs.Asking.{Asks, IsDeskCall};

use account_core::{Call, Reply, StepError};
use std::alloc::Global;

/// One caller's access to several accounts, which others may ask too. Accounts are numbered from 0.
pub trait Desk {
    /// The desk's share of each account: where the account's history begins, the caller's number in
    /// it, and the entries that the desk has seen.
    ghost shares: { Self → List Share };

    /// What calls keep of a desk besides the shares. It relates a desk to the same desk after any
    /// number of calls.
    ghost leads: { Self → Self → Type 0 };

    /// How many accounts there are.
    fn accounts(&self) -> u32
        ensures count { result ≡ length (shares self.now) }
        ensures within { AreWithinJournals (shares self.now) };

    /// Asks the account of this number: a delivery, a check, a removal, new flags, a move, new
    /// limits, or a question about the quota of a root, the roots of a mailbox or the status of a
    /// mailbox.
    ///
    /// `bytes` are the octets of a delivered message, at most 67108864, and empty for the other
    /// calls.
    ///
    /// # Errors
    ///
    /// `Store` if the store failed. The call's entry has fault then. `JournalFull` if the history
    /// has as many entries as its journal takes, and `NoMemory` if memory runs out. The call has no
    /// entry then.
    fn ask(
        &mut self,
        alloc: Global,
        account: u32,
        call: Call,
        bytes: &[u8],
    ) -> Result<Reply, StepError>
        requires account { account < length (shares self.old) }
        requires asked { IsDeskCall call }
        requires bytes { HasBytes call bytes.now }
        ensures asks { Asks (share_at (shares self.old) account) call result
            (share_at (shares self.new) account) }
        ensures others { shares self.new
            ≡ set (shares self.old) account (share_at (shares self.new) account) }
        ensures within { AreWithinJournals (shares self.new) }
        ensures leads { leads self.old self.new };

    ghost leads_itself: { (desk : Self) → leads desk desk };

    ghost leads_on: { (first between last : Self)
        → leads first between → leads between last → leads first last };
}
