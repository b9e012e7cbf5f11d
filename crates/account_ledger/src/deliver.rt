// Deliveries. A delivery puts a message into its mailbox and writes its line into the ledger of
// each root that governs the mailbox.
ghost use Rattle.std.specs.Prelude.{◌≡◌, ◌<◌, ◌≤◌, ◌+◌, ◌^◌, true, None, length, bytes_eq, IfOk};
ghost use Rattle.std.specs.List.{list_any};
ghost use Rattle.message_names.specs.Written.{written_name};
ghost use Rattle.message_names.specs.Messages.{message_of};
ghost use Rattle.message_names.specs.Sizes.{cut_size};
ghost use Rattle.account_core.specs.Account.{Account};
ghost use Rattle.account_core.specs.Delivering.{delivered_base};
ghost use Rattle.account_core.specs.Machine.{over_in};
ghost use Rattle.account_ledger.specs.Lives.{Acts, IsShown, Shows, Steps, store_of};
ghost use Rattle.account_ledger.specs.Settling.{SparesLedgers};
ghost use Rattle.account_ledger.specs.NamedFiles.{IsDeliveryName};

use crate::counts::Counts;
use crate::fault::step_error;
use crate::live::LiveAccount;
use account_core::{Call, Reply, StepError, delivered_base};
use admission::Verdict;
use keeper::Keeper;
use message_names::{NameFault, print_name};
use quota_units::Flags;
use std::alloc::{AllocError, Global};

/// The file name of the delivery of this number.
#[tactic(auto, using(crate::proofs::Bases::delivered_is_base))]
fn message_name(
    alloc: Global,
    epoch: u64,
    number: u64,
    octets: u64,
    flags: Flags,
) -> Result<Vec<u8>, AllocError>
    ensures { IfOk result (λ name. IsDeliveryName epoch number octets flags name.items) }
{
    let Ok(base) = delivered_base(alloc, epoch, number) else {
        return Err(AllocError);
    };
    match print_name(alloc, base.as_slice(), octets, flags) {
        Err(NameFault::BadBase) => unreachable!(),
        name => name.map_err(|_| AllocError),
    }
}

impl<K: Keeper> LiveAccount<K> {
    /// Delivers a message of this many octets, with these flags, to the mailbox of this name, if
    /// the message fits the roots that govern the mailbox.
    pub(crate) fn deliver(
        &mut self,
        alloc: Global,
        mailbox: &[u8],
        octets: u64,
        flags: Flags,
        bytes: &[u8],
    ) -> Result<Reply, StepError>
        requires bytes { octets ≡ length bytes.now }
        requires most { octets ≤ 67108864 }
        requires shown { IsShown self.old }
        requires countable { self.old.deliveries < 2 ^ 63 }
        requires changes { self.old.generation < 2 ^ 63 }
        ensures { Steps (Call.Deliver mailbox.now octets flags) bytes.now result self.old self.new }
    {
        self.show_whole();
        if !self.has_mailbox(mailbox) {
            return Ok(Reply::NoMailbox);
        }
        let name = self.next_name(alloc, octets, flags)?;
        let set = self.gainers(None, mailbox);
        self.settle(alloc, set)?;
        match self.verdict(set, octets) {
            Verdict::Over { root, resource } => Ok(Reply::Over { root, resource }),
            Verdict::Fits => self.accept(alloc, mailbox, octets, flags, &name, bytes),
        }
    }

    /// The file name of the next delivery.
    fn next_name(&self, alloc: Global, octets: u64, flags: Flags) -> Result<Vec<u8>, AllocError>
        requires { self.now.deliveries < 2 ^ 63 }
        ensures { IfOk result (λ name.
            IsDeliveryName self.now.epoch (self.now.deliveries + 1) octets flags name.items) }
    {
        message_name(alloc, self.epoch, self.counts.deliveries + 1, octets, flags)
    }

    /// Puts an accepted message into its mailbox under its name, and writes its lines.
    fn accept(
        &mut self,
        alloc: Global,
        mailbox: &[u8],
        octets: u64,
        flags: Flags,
        name: &[u8],
        bytes: &[u8],
    ) -> Result<Reply, StepError>
        requires bytes { octets ≡ length bytes.now }
        requires most { octets ≤ 67108864 }
        requires shown { IsShown self.old }
        requires countable { self.old.deliveries < 2 ^ 63 }
        requires changes { self.old.generation < 2 ^ 63 }
        requires name { IsDeliveryName self.old.epoch
            (self.old.deliveries + 1) octets flags name.now }
        requires there { list_any (λ other. bytes_eq other mailbox.now) self.old.mailboxes ≡ true }
        requires fits { (account : Account) → Shows self.old account
            → over_in self.old.roots account mailbox.now octets ≡ None }
        ensures acts { Acts
            (Call.Deliver mailbox.now octets flags) bytes.now result self.old self.new }
        ensures spared { SparesLedgers result (store_of self.old) (store_of self.new) }
    {
        self.ledgers.show_kept();
        let number = self.counts.deliveries + 1;
        if let Err(fault) = self.keeper.put(alloc, mailbox, name, bytes) {
            return Err(step_error(fault));
        }
        self.ledgers
            .write_lines(&mut self.keeper, &self.roots, None, Some(mailbox), octets);
        self.counts = Counts {
            deliveries: number,
            generation: self.counts.generation + 1,
        };
        Ok(Reply::Delivered { number })
    }
}
