// The calls of an open account, and what is left after the account is closed.
ghost use Rattle.std.specs.Prelude.{◌<◌, []};
ghost use Rattle.account_core.specs.Legality.{HasBytes, MayBeAsked};

use crate::answers::{answer_text, fault_text, totals_text};
use crate::lines::{limits_of, name_of, number_of, shown_ledger, text_of};
use crate::trouble::Trouble;
use account_core::Call;
use account_ledger::{AccountState, Standing};
use keeper::{Keeper, MemKeeper};
use quota_units::Flags;
use std::alloc::Global;

/// The longest message, in octets.
const MAX_MESSAGE: u64 = 67108864;

/// The most files of a mailbox that are shown by their names.
const MANY_FILES: usize = 8;

type Account = AccountState<MemKeeper>;

/// Serves the call of a line, and returns the answer.
pub fn serve_line(
    alloc: Global,
    account: &mut Account,
    words: &[&[u8]],
) -> Result<String, Trouble> {
    match words {
        [b"deliver", mailbox, octets] => deliver(alloc, account, mailbox, octets, b""),
        [b"deliver", mailbox, octets, flags] => deliver(alloc, account, mailbox, octets, flags),
        [b"fill", times, mailbox, octets] => {
            for _ in 1..number_of(times)? {
                deliver(alloc, account, mailbox, octets, b"")?;
            }
            deliver(alloc, account, mailbox, octets, b"")
        }
        [b"usage", root] => usage(alloc, account, root),
        [b"standings"] => standings(alloc, account),
        [b"remove" | b"mark" | b"move" | b"limits", ..] => change(alloc, account, words),
        _ => ask(alloc, account, words),
    }
}

/// Serves a removal, a mark, a move or new limits.
fn change(alloc: Global, account: &mut Account, words: &[&[u8]]) -> Result<String, Trouble> {
    match words {
        [b"remove", mailbox, base] => {
            let mailbox = name_of(alloc, mailbox)?;
            let base = name_of(alloc, base)?;
            serve(alloc, account, Call::Remove { mailbox, base })
        }
        [b"mark", mailbox, base, flags] => {
            let mailbox = name_of(alloc, mailbox)?;
            let base = name_of(alloc, base)?;
            let flags = flags_of(flags)?;
            let call = Call::Mark {
                mailbox,
                base,
                flags,
            };
            serve(alloc, account, call)
        }
        [b"move", from, base, to] => {
            let from = name_of(alloc, from)?;
            let base = name_of(alloc, base)?;
            let to = name_of(alloc, to)?;
            serve(alloc, account, Call::Move { from, base, to })
        }
        [b"limits", root, octets, count] => {
            let root = name_of(alloc, root)?;
            let limits = limits_of(octets, count)?;
            serve(alloc, account, Call::SetLimits { root, limits })
        }
        _ => Err(Trouble::NoForm),
    }
}

/// Serves a question.
fn ask(alloc: Global, account: &mut Account, words: &[&[u8]]) -> Result<String, Trouble> {
    match words {
        [b"check", octets] => {
            let octets = number_of(octets)?;
            serve(alloc, account, Call::Check { octets })
        }
        [b"quota", root] => {
            let root = name_of(alloc, root)?;
            serve(alloc, account, Call::Quota { root })
        }
        [b"roots", mailbox] => {
            let mailbox = name_of(alloc, mailbox)?;
            serve(alloc, account, Call::Roots { mailbox })
        }
        [b"status", mailbox] => {
            let mailbox = name_of(alloc, mailbox)?;
            serve(alloc, account, Call::Status { mailbox })
        }
        [b"begin"] => serve(alloc, account, Call::ScanBegin),
        [b"part", index] => {
            let index = u32::try_from(number_of(index)?).map_err(|_| Trouble::NoForm)?;
            serve(alloc, account, Call::ScanPart { index })
        }
        _ => Err(Trouble::NoForm),
    }
}

/// The answer to a call without octets, as it is printed.
fn serve(alloc: Global, account: &mut Account, call: Call) -> Result<String, Trouble>
    requires asked { MayBeAsked call }
    requires bytes { HasBytes call [] }
{
    let answer = account.serve(alloc, 0, call, b"");
    answer_text(alloc, &answer)
}

/// Delivers a message of this many octets, each `x`.
fn deliver(
    alloc: Global,
    account: &mut Account,
    mailbox: &[u8],
    octets: &[u8],
    flags: &[u8],
) -> Result<String, Trouble> {
    let octets = number_of(octets)?;
    if octets > MAX_MESSAGE {
        return Err(Trouble::NoForm);
    }
    let bytes = vec![in alloc; b'x'; octets as usize]?;
    let call = Call::Deliver {
        mailbox: name_of(alloc, mailbox)?,
        octets,
        flags: flags_of(flags)?,
    };
    let answer = account.serve(alloc, 0, call, bytes.as_slice());
    answer_text(alloc, &answer)
}

/// The flags of these letters; `-` stands for no flags.
fn flags_of(letters: &[u8]) -> Result<Flags, Trouble> {
    if letters == b"-".as_slice() {
        return Ok(Flags::among(b""));
    }
    Flags::of_letters(letters).ok_or(Trouble::NoForm)
}

fn usage(alloc: Global, account: &mut Account, root: &[u8]) -> Result<String, Trouble> {
    let root = number_of(root)?;
    if root >= u64::from(account.root_count()) {
        return Err(Trouble::NoForm);
    }
    match account.usage(alloc, root as u32) {
        Ok(totals) => totals_text(alloc, totals),
        Err(fault) => fault_text(alloc, &fault),
    }
}

/// The standing of each root.
fn standings(alloc: Global, account: &Account) -> Result<String, Trouble> {
    let mut text = String::new(alloc);
    for root in 0..account.root_count() {
        match account.standing(root) {
            Standing::Settled => text.push_str("settled ")?,
            Standing::Doubt => text.push_str("doubt ")?,
        }
    }
    Ok(text)
}

/// The number of calls, and what the keeper has after them: the ledgers of the first four roots,
/// and the files of INBOX, Lists and Trash with their lengths. Of a mailbox with more than
/// `MANY_FILES` files only the number of files is given.
pub fn close(alloc: Global, account: Account) -> Result<String, Trouble> {
    let calls = account.calls();
    let roots = account.root_count();
    let mut keeper = account.into_keeper();
    let mut text = format!(in alloc; "{calls} calls")?;
    for root in 0..roots.min(4) {
        let ledger = ledger_line(alloc, &mut keeper, root)?;
        text.push_str(ledger.as_str())?;
    }
    for mailbox in ["INBOX", "Lists", "Trash"] {
        let files = files_lines(alloc, &mut keeper, mailbox)?;
        text.push_str(files.as_str())?;
    }
    Ok(text)
}

fn ledger_line(alloc: Global, keeper: &mut MemKeeper, root: u32) -> Result<String, Trouble>
    requires { root < 4 }
{
    match keeper.read_ledger(alloc, root)? {
        None => Ok(format!(in alloc; "\n  ledger {root}: none")?),
        Some(bytes) => {
            let shown = shown_ledger(alloc, bytes.as_slice())?;
            Ok(format!(in alloc; "\n  ledger {root}: {shown}")?)
        }
    }
}

fn files_lines(alloc: Global, keeper: &mut MemKeeper, mailbox: &str) -> Result<String, Trouble> {
    let rows = keeper.list(alloc, mailbox.as_bytes())?;
    if rows.len() > MANY_FILES {
        return Ok(format!(in alloc; "\n  {mailbox}: {} files", rows.len())?);
    }
    let mut text = String::new(alloc);
    for row in rows.iter() {
        let Ok(name) = str::from_utf8(row.name.as_slice()) else {
            return text_of(alloc, "no text");
        };
        let line = format!(in alloc; "\n  {mailbox}: {name} ({})", row.length)?;
        text.push_str(line.as_str())?;
    }
    Ok(text)
}
