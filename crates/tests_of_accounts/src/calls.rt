// The calls of an account, written in words.
ghost use Rattle.std.specs.Prelude.{[], IfOk};
ghost use Rattle.account_core.specs.Legality.{HasBytes, MayBeAsked};

use account_core::{Call, Reply, StepError};
use account_ledger::{AccountState, Standing};
use keeper::Keeper;
use quota_units::{Flags, Limits, Name};
use std::alloc::Global;
use std::test::Fail;

/// The longest message, in octets.
const MAX_MESSAGE: u64 = 67108864;

/// Does the step that these words say, and returns its answer.
fn answer<K: Keeper>(
    alloc: Global,
    account: &mut AccountState<K>,
    words: [&str; 4],
) -> Result<String, Fail> {
    match words {
        ["deliver", mailbox, octets, flags] => deliver(alloc, account, mailbox, octets, flags),
        ["usage", root, ..] => usage(alloc, account, root),
        ["standings", ..] => standings(alloc, account),
        _ => serve(alloc, account, call_of(alloc, words)?),
    }
}

/// Does steps and checks their answers.
pub(crate) fn check_steps<K: Keeper>(
    alloc: Global,
    account: &mut AccountState<K>,
    steps: &str,
) -> Result<(), Fail> {
    for row in steps.lines() {
        let (step, expected) = row.split_once(" => ").unwrap_or((row, ""));
        let mut words = step.split(' ');
        let verb = words.next().unwrap_or("");
        let first = words.next().unwrap_or("");
        let second = words.next().unwrap_or("");
        let third = words.next().unwrap_or("");
        let found = answer(alloc, account, [verb, first, second, third])?;
        if found.as_str() != expected {
            return Err(format!(in alloc; "{step} => {found}")?.into());
        }
    }
    Ok(())
}

/// The call that these words say. The word `-` stands for the empty name, for no flags and for no
/// limit.
fn call_of(alloc: Global, words: [&str; 4]) -> Result<Call, Fail>
    ensures served { IfOk result MayBeAsked }
    ensures bytes { IfOk result (λ call. HasBytes call []) }
{
    let [verb, first, second, third] = words;
    let first = name_of(alloc, first)?;
    match verb {
        "mark" => Ok(Call::Mark {
            mailbox: first,
            base: name_of(alloc, second)?,
            flags: flags_of(third)?,
        }),
        "move" => Ok(Call::Move {
            from: first,
            base: name_of(alloc, second)?,
            to: name_of(alloc, third)?,
        }),
        "remove" => Ok(Call::Remove {
            mailbox: first,
            base: name_of(alloc, second)?,
        }),
        "limits" => Ok(Call::SetLimits {
            root: first,
            limits: Limits::new(limit_of(second)?, limit_of(third)?).ok_or("limits in range")?,
        }),
        _ => Ok(Call::Quota { root: first }),
    }
}

fn name_of(alloc: Global, word: &str) -> Result<Name, Fail> {
    let word = if word == "-" { "" } else { word };
    Ok(Name::of(alloc, word.as_bytes())?)
}

fn flags_of(word: &str) -> Result<Flags, Fail> {
    let word = if word == "-" { "" } else { word };
    Ok(Flags::of_letters(word.as_bytes()).ok_or("letters of flags")?)
}

fn limit_of(word: &str) -> Result<Option<u64>, Fail> {
    if word == "-" {
        return Ok(None);
    }
    Ok(Some(word.parse::<u64>()?))
}

/// Delivers a message of this many octets, each `x`.
fn deliver<K: Keeper>(
    alloc: Global,
    account: &mut AccountState<K>,
    mailbox: &str,
    octets: &str,
    flags: &str,
) -> Result<String, Fail> {
    let octets = octets.parse::<u64>()?;
    if octets > MAX_MESSAGE {
        return Err("a message that is too long".into());
    }
    let bytes = vec![in alloc; b'x'; octets as usize]?;
    let call = Call::Deliver {
        mailbox: name_of(alloc, mailbox)?,
        octets,
        flags: flags_of(flags)?,
    };
    let answer = account.serve(alloc, 0, call, bytes.as_slice());
    shown(alloc, &answer)
}

/// The answer to a call without octets.
fn serve<K: Keeper>(
    alloc: Global,
    account: &mut AccountState<K>,
    call: Call,
) -> Result<String, Fail>
    requires served { MayBeAsked call }
    requires bytes { HasBytes call [] }
{
    let answer = account.serve(alloc, 0, call, b"");
    shown(alloc, &answer)
}

/// An answer in words. For the row of a root, these are its octets and messages, and their limits.
fn shown(alloc: Global, answer: &Result<Reply, StepError>) -> Result<String, Fail> {
    match answer {
        Ok(Reply::Quota(row) | Reply::LimitsSet(row)) => {
            let octets = row.limits.octets();
            let count = row.limits.count();
            Ok(format!(in alloc; "{} {} of {octets:?} {count:?}", row.octets, row.count)?)
        }
        Ok(reply) => Ok(format!(in alloc; "{reply:?}")?),
        Err(fault) => Ok(format!(in alloc; "{fault:?}")?),
    }
}

/// The octets and the messages of a root's usage.
fn usage<K: Keeper>(
    alloc: Global,
    account: &mut AccountState<K>,
    root: &str,
) -> Result<String, Fail> {
    let root = root.parse::<u32>()?;
    if root >= account.root_count() {
        return Err("no such root".into());
    }
    match account.usage(alloc, root) {
        Ok(totals) => Ok(format!(in alloc; "{} {}", totals.octets, totals.count)?),
        Err(fault) => Ok(format!(in alloc; "{fault:?}")?),
    }
}

/// The standing of each root.
fn standings<K: Keeper>(alloc: Global, account: &AccountState<K>) -> Result<String, Fail> {
    let mut text = String::new(alloc);
    for root in 0..account.root_count() {
        text.push_str(match account.standing(root) {
            Standing::Settled => "settled;",
            Standing::Doubt => "doubt;",
        })?;
    }
    Ok(text)
}
