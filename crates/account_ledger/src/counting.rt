// What the files of a mailbox add up to.
ghost use Rattle.std.specs.Prelude.{◌≡◌, ◌<◌, ◌^◌, if◌then◌else◌, map, IfOk};
ghost use Rattle.quota_roots.specs.Governing.{governing};
ghost use Rattle.quota_units.specs.Sums.{AreSmall};
ghost use Rattle.account_ledger.specs.Counting.{AreSmallSums, sums_of, with_file};

use account_core::RootSets;
use keeper::FileRow;
use message_names::{parse_name, size_of};
use quota_roots::Roots;
use quota_units::{MAX_SUM, Name, Totals, cut_sum};
use std::alloc::{AllocError, Global};

/// What the messages of a mailbox add up to: all messages, the messages with the flag T, and the
/// number of messages without the flag S.
#[derive(Clone, Copy)]
pub(crate) struct MailboxSums {
    pub(crate) all: Totals,
    pub(crate) deleted: Totals,
    pub(crate) unseen: u64,
}

/// These totals if they are counted, or else zeros.
fn counted(is_counted: bool, totals: Totals) -> Totals
    requires { AreSmall totals }
    ensures octets { result.octets ≡ (if is_counted then totals.octets else 0) }
    ensures count { result.count ≡ (if is_counted then totals.count else 0) }
    ensures small { AreSmall result }
{
    if is_counted {
        totals
    } else {
        Totals {
            octets: 0,
            count: 0,
        }
    }
}

/// One if the message has not been seen, or else zero.
fn unseen(seen: bool) -> u64
    ensures value { result ≡ (if seen then 0 else 1) }
    ensures small { result < 2 ^ 62 }
{
    if seen { 0 } else { 1 }
}

/// The sums with one more file.
fn with_file(sums: MailboxSums, file: &FileRow) -> MailboxSums
    requires { AreSmallSums sums }
    ensures value { result ≡ with_file sums file.now }
    ensures small { AreSmallSums result }
{
    let parts = parse_name(file.name.as_slice());
    let one = Totals {
        octets: size_of(&parts, file.length),
        count: 1,
    };
    MailboxSums {
        all: cut_sum(sums.all, one),
        deleted: cut_sum(sums.deleted, counted(parts.flags.trashed, one)),
        unseen: (sums.unseen + unseen(parts.flags.seen)).min(MAX_SUM),
    }
}

/// What the files of a mailbox add up to.
#[tactic(auto, using(crate::proofs::CountingLemmas::sums_more))]
pub(crate) fn sums_of(files: &[FileRow]) -> MailboxSums
    ensures { result ≡ sums_of files.now }
{
    let none = Totals {
        octets: 0,
        count: 0,
    };
    let mut sums = MailboxSums {
        all: none,
        deleted: none,
        unseen: 0,
    };
    for file in files {
        sums = with_file(sums, file);
    }
    sums
}

/// The roots that govern each mailbox.
pub(crate) fn sets_of(
    alloc: Global,
    roots: &Roots,
    mailboxes: &[Name],
) -> Result<RootSets, AllocError>
    ensures { IfOk result (λ sets. sets ≡ map (governing roots.now) mailboxes.now) }
{
    let mut sets = RootSets::new(alloc);
    for mailbox in mailboxes {
        sets.push(roots.roots_of(mailbox.as_slice()))?;
    }
    Ok(sets)
}
