ghost use Rattle.std.specs.Prelude.{◌≡◌};
ghost use Rattle.account_core.specs.declared.calls.StepError.TheVariants.{NoMemory};

use crate::{RootRows, RootSets, TotalsList};
use quota_units::{Flags, Limits, Name, Resource};
use std::alloc::{AllocError, AllocFailed};
use thiserror::Error;

/// What an account is asked.
#[derive(Debug, Drop)]
pub enum Call {
    /// A message of `octets` octets, with these flags, for the mailbox of this name.
    Deliver {
        mailbox: Name,
        octets: u64,
        flags: Flags,
    },
    /// Whether INBOX would take a message of `octets` octets.
    Check {
        octets: u64,
    },
    /// Removes the message with this mailbox and base. If several messages have both, the call is
    /// for the first of them.
    Remove {
        mailbox: Name,
        base: Name,
    },
    /// Gives these flags to the message with this mailbox and base.
    Mark {
        mailbox: Name,
        base: Name,
        flags: Flags,
    },
    /// Moves the message with the mailbox `from` and this base to the mailbox `to`.
    Move {
        from: Name,
        base: Name,
        to: Name,
    },
    /// The usage and the limits of the root of this name.
    Quota {
        root: Name,
    },
    /// Sets the limits of the root of this name. Limits that are not set here are removed.
    SetLimits {
        root: Name,
        limits: Limits,
    },
    /// The roots that govern the mailbox of this name, which need not exist.
    Roots {
        mailbox: Name,
    },
    /// How many messages the mailbox of this name has, with their octets (STATUS of RFC 9051;
    /// DELETED and DELETED-STORAGE of RFC 9208).
    Status {
        mailbox: Name,
    },
    /// Begins a scan of the account.
    ScanBegin,
    /// How many octets and messages the mailbox at this place has. Places count from 0.
    ScanPart {
        index: u32,
    },
    /// Installs the totals of a scan that was begun at this generation as the usages.
    Install {
        generation: u64,
    },
}

/// A root's number, its usage in octets and messages, and its limits.
#[derive(Clone, Copy, Debug, PartialEq, Eq)]
pub struct RootRow {
    pub root: u32,
    pub octets: u64,
    pub count: u64,
    pub limits: Limits,
}

/// The account machine's reply to a call.
#[derive(Debug, Drop)]
pub enum Reply {
    /// The account has no mailbox of that name.
    NoMailbox,
    /// The message would take this resource of this root above its limit (OVERQUOTA of RFC 9208).
    Over {
        root: u32,
        resource: Resource,
    },
    /// The message was accepted. `number` is the number of its delivery, from 1 on.
    Delivered {
        number: u64,
    },
    /// The message would stay within every limit.
    Fits,
    /// The mailbox has no message of that base.
    NoMessage,
    /// The message is gone.
    Removed,
    /// The message has these flags.
    Marked,
    /// The mailbox that the message would move to has a message of that base.
    NameTaken,
    /// The message is in the mailbox that it moved to.
    Moved,
    /// No root has that name.
    NoRoot,
    /// The named root, as it is.
    Quota(RootRow),
    /// The named root, with its new limits.
    LimitsSet(RootRow),
    /// The roots that govern the mailbox, in order.
    Roots(RootRows),
    /// How many messages the mailbox has, how many of them lack the flag S, and how many have the
    /// flag T; the octets of those with the flag T, and the octets of all.
    Status {
        messages: u64,
        unseen: u64,
        deleted: u64,
        deleted_octets: u64,
        octets: u64,
    },
    /// The generation, that is how many deliveries, removals and moves between two mailboxes were
    /// made; and the roots that govern each mailbox, in the order of the mailboxes.
    Begun {
        generation: u64,
        sets: RootSets,
    },
    /// The account has no mailbox at that place.
    NoPart,
    /// The generation, and the octets and the number of the mailbox's messages.
    Part {
        generation: u64,
        octets: u64,
        count: u64,
    },
    /// The messages changed after the scan was begun: the generation then, and the generation now.
    Changed {
        then: u64,
        now: u64,
    },
    /// The scan's totals are the usages now: one for each root, in order.
    Installed {
        usages: TotalsList,
    },
}

/// One call in the history of an account: who made it, and whether it had no effect because the
/// store had a fault.
#[derive(Debug, Drop)]
pub struct Entry {
    pub caller: u32,
    pub call: Call,
    pub fault: bool,
}

/// Why an account gave no reply.
#[derive(Clone, Copy, Debug, PartialEq, Eq, Error)]
pub enum StepError {
    /// Memory ran out. The history is as before.
    #[error("out of memory")]
    NoMemory,
    /// The store failed. The history has an entry of the call, with fault.
    #[error("the store is unavailable")]
    Store,
    /// The history has `limit` entries already, the most that it may have.
    #[error("the journal is full at {limit} entries")]
    JournalFull { limit: u32 },
}

impl From<AllocError> for StepError {
    ghost from_gives = { λ _ e. e ≡ NoMemory };

    fn from(_: AllocError) -> Self {
        StepError::NoMemory
    }
}

impl<T: Drop> From<AllocFailed<T>> for StepError {
    ghost from_gives = { λ _ e. e ≡ NoMemory };

    fn from(_: AllocFailed<T>) -> Self {
        StepError::NoMemory
    }
}
