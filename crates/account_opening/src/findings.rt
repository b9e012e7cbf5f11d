// Looking for what prevents opening an account, mailbox by mailbox. The listing of a mailbox is
// dropped before the next mailbox is listed.
ghost use Rattle.std.specs.Prelude.{◌≡◌, ◌++◌, codes, decimal, IfOk, IsErrOf};
ghost use Rattle.quota_units.specs.Causes.{HasCause};
ghost use Rattle.keeper.specs.Calls.{Changes, SpendsDue, both};
ghost use Rattle.account_opening.specs.Bases.{no_findings, with_files_of};
ghost use Rattle.account_opening.specs.Admitting.{Finds};

use crate::bases::{double_in, used_in};
use keeper::{FileRow, KeepError, Keeper};
use quota_units::Name;
use std::alloc::{AllocError, Global};

/// What was found in the mailboxes that were listed so far.
#[derive(Debug, Drop)]
pub(crate) struct Findings {
    /// How many files these mailboxes have, up to 2^64 - 1.
    pub(crate) files: u64,
    /// The first base that two files of its mailbox have.
    pub(crate) double: Option<Name>,
    /// The first base that a delivery of the epoch could have.
    pub(crate) used: Option<Name>,
}

impl Findings {
    /// The findings before any mailbox is listed.
    fn none() -> Findings
        ensures { result ≡ no_findings }
    {
        Findings {
            files: 0,
            double: None,
            used: None,
        }
    }

    /// These findings with the files of one more mailbox. The prefix is the epoch and a dot.
    fn with(
        self,
        alloc: Global,
        epoch: u64,
        prefix: &[u8],
        files: &[FileRow],
    ) -> Result<Findings, AllocError>
        requires { prefix.now ≡ decimal epoch ++ codes "." }
        ensures { IfOk result (λ found. found ≡ with_files_of epoch self files.now) }
    {
        let Findings {
            files: count,
            double,
            used,
        } = self;
        let double = match double {
            Some(name) => Some(name),
            None => double_in(alloc, files)?,
        };
        let used = match used {
            Some(name) => Some(name),
            None => used_in(alloc, epoch, prefix, files)?,
        };
        Ok(Findings {
            files: count.saturating_add(files.len() as u64),
            double,
            used,
        })
    }
}

/// Lists the mailboxes one after the other, and looks through the files of each.
pub(crate) fn find<K: Keeper>(
    alloc: Global,
    keeper: &mut K,
    mailboxes: &[Name],
    epoch: u64,
) -> Result<Findings, KeepError>
    ensures files { Changes (Finds epoch mailboxes.now result) (K.told keeper.old)
        (K.told keeper.new) }
    ensures cause { HasCause (IsErrOf result KeepError.Failed) (K.faults keeper.old)
        (K.faults keeper.new) }
    ensures due { SpendsDue K.told (both K.faults K.append_faults) (IsErrOf result KeepError.Failed)
        keeper.old keeper.new }
    ensures appends { K.append_faults keeper.new ≡ K.append_faults keeper.old }
{
    let prefix = format!(in alloc; "{epoch}.")?;
    let mut found = Findings::none();
    for mailbox in mailboxes {
        let files = keeper.list(alloc, mailbox.as_slice())?;
        found = found.with(alloc, epoch, prefix.as_bytes(), &files)?;
    }
    Ok(found)
}
