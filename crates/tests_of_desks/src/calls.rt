// The calls of a desk, by their words.
ghost use Rattle.std.specs.Prelude.{[], IfOk};
ghost use Rattle.account_core.specs.Legality.{HasBytes};
ghost use Rattle.desk.specs.Asking.{IsDeskCall};

use account_core::{Call, Reply, StepError};
use desk::Desk;
use quota_units::{Flags, Name};
use std::alloc::Global;
use std::test::Fail;

/// The longest message, in octets.
const MAX_MESSAGE: u64 = 67108864;

/// Asks what each line says, and checks the answers. A line has the number of an account, a call,
/// and after an arrow the answer.
pub(crate) fn check_steps<D: Desk>(alloc: Global, desk: &mut D, steps: &str) -> Result<(), Fail> {
    for row in steps.lines() {
        let (step, expected) = row.split_once(" => ").unwrap_or((row, ""));
        let mut words = step.split(' ');
        let account = words.next().unwrap_or("").parse::<u32>()?;
        let verb = words.next().unwrap_or("");
        let first = words.next().unwrap_or("");
        let second = words.next().unwrap_or("");
        let found = answer(alloc, desk, account, [verb, first, second])?;
        if found.as_str() != expected {
            return Err(format!(in alloc; "{step} => {found}")?.into());
        }
    }
    Ok(())
}

/// Asks the account what these words say, and gives the answer.
fn answer<D: Desk>(
    alloc: Global,
    desk: &mut D,
    account: u32,
    words: [&str; 3],
) -> Result<String, Fail> {
    if account >= desk.accounts() {
        return Err("no such account".into());
    }
    let [verb, first, second] = words;
    if verb == "deliver" {
        let octets = second.parse::<u64>()?;
        if octets > MAX_MESSAGE {
            return Err("a message that is too long".into());
        }
        let bytes = vec![in alloc; b'x'; octets as usize]?;
        let call = Call::Deliver {
            mailbox: Name::of(alloc, first.as_bytes())?,
            octets,
            flags: Flags::of_letters(b"").ok_or("no flags")?,
        };
        return shown(alloc, &desk.ask(alloc, account, call, bytes.as_slice()));
    }
    let call = call_of(alloc, words)?;
    shown(alloc, &desk.ask(alloc, account, call, b""))
}

/// The call that these words say, other than a delivery; `-` is the empty name.
fn call_of(alloc: Global, words: [&str; 3]) -> Result<Call, Fail>
    ensures asked { IfOk result IsDeskCall }
    ensures bytes { IfOk result (λ call. HasBytes call []) }
{
    let [verb, first, second] = words;
    let first = if first == "-" { "" } else { first };
    match verb {
        "remove" => Ok(Call::Remove {
            mailbox: Name::of(alloc, first.as_bytes())?,
            base: Name::of(alloc, second.as_bytes())?,
        }),
        "status" => Ok(Call::Status {
            mailbox: Name::of(alloc, first.as_bytes())?,
        }),
        _ => Ok(Call::Quota {
            root: Name::of(alloc, first.as_bytes())?,
        }),
    }
}

/// An answer. The row of a root is shown by its octets, its messages and their limits.
fn shown(alloc: Global, answer: &Result<Reply, StepError>) -> Result<String, Fail> {
    match answer {
        Ok(Reply::Quota(row)) => {
            let octets = row.limits.octets();
            let count = row.limits.count();
            Ok(format!(in alloc; "{} {} of {octets:?} {count:?}", row.octets, row.count)?)
        }
        Ok(reply) => Ok(format!(in alloc; "{reply:?}")?),
        Err(fault) => Ok(format!(in alloc; "{fault:?}")?),
    }
}
