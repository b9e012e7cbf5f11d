// How a message that goes from one mailbox to another changes the usage of quota roots.
ghost use Rattle.std.specs.Prelude.{◌≡◌, ◌<◌, length};
ghost use Rattle.std.specs.Option.{option_map};
ghost use Rattle.root_ledgers.specs.Lines.{change_at, governs_in, line_by, totals_by};
ghost use Rattle.quota_units.specs.Sums.{AreSmall};

use maildirsize::{Text, print_line};
use quota_roots::Roots;
use quota_units::{Totals, cut_sum};

/// How the usage of a quota root changes if a message comes to the mailboxes that the root governs,
/// or leaves them.
#[derive(Clone, Copy, Debug, PartialEq, Eq)]
pub enum Change {
    /// The usage grows by the message's octets and one message.
    Comes,
    /// The usage shrinks by the message's octets and one message.
    Goes,
}

/// Whether there is a mailbox and the root governs it.
fn governs_in(roots: &Roots, root: u32, mailbox: Option<&[u8]>) -> bool
    requires { root < length roots.now }
    ensures { result ≡ governs_in roots.now root (option_map (λ m. m.now) mailbox.entry) }
{
    match mailbox {
        None => false,
        Some(mailbox) => roots.governs(root, mailbox),
    }
}

/// How a message that goes from one mailbox to another changes the usage of the root; `None` if it
/// does not. A delivered message comes from no mailbox, and a removed message goes to none.
pub(crate) fn change_at(
    roots: &Roots,
    root: u32,
    from: Option<&[u8]>,
    to: Option<&[u8]>,
) -> Option<Change>
    requires { root < length roots.now }
    ensures { result ≡ change_at roots.now (option_map (λ m. m.now) from.entry)
        (option_map (λ m. m.now) to.entry) root }
{
    match (governs_in(roots, root, from), governs_in(roots, root, to)) {
        (false, true) => Some(Change::Comes),
        (true, false) => Some(Change::Goes),
        _ => None,
    }
}

/// Sets `line` to the line of this change by a message of `octets` octets.
pub(crate) fn print_change(change: Change, octets: u64, line: &mut Text)
    requires { octets < 1000000000000000000 }
    ensures { line.new ≡ line_by change octets }
{
    match change {
        Change::Comes => print_line(octets as i64, 1, line),
        Change::Goes => print_line(-(octets as i64), -1, line),
    }
}

/// The usage after the change.
pub(crate) fn totals_by(change: Change, octets: u64, totals: Totals) -> Totals
    requires octets { octets < 1000000000000000000 }
    requires totals { AreSmall totals }
    ensures value { result ≡ totals_by change octets totals }
    ensures small { AreSmall result }
{
    match change {
        Change::Comes => cut_sum(totals, Totals { octets, count: 1 }),
        Change::Goes => Totals {
            octets: totals.octets.saturating_sub(octets),
            count: totals.count.saturating_sub(1),
        },
    }
}
