// The summary of a workload.
ghost use Rattle.std.specs.Prelude.{◌≡◌, IfOk};
ghost use Rattle.workload.specs.Texts.{text_of};

use crate::text::push_numbered;
use quota_units::NoMemory;
use std::alloc::Global;

/// How the requests of a workload were answered, and what the account uses at the end.
#[derive(Clone, Copy, Debug, PartialEq, Eq)]
pub struct Summary {
    /// How many requests were made.
    pub requests: u64,
    /// How many deliveries were accepted.
    pub delivered: u64,
    /// How many deliveries were refused, since a limit would have been exceeded.
    pub refused: u64,
    /// How many messages were removed.
    pub removed: u64,
    /// How many removals named no message of the account.
    pub missing: u64,
    /// The octets of the account's messages at the end.
    pub octets: u64,
    /// How many messages the account has at the end.
    pub messages: u64,
}

/// The text of a summary: seven lines, each with a word and a number, and each ended by a line
/// feed.
///
/// # Errors
///
/// `NoMemory` if memory runs out.
pub fn summary_text(alloc: Global, summary: &Summary) -> Result<Vec<u8>, NoMemory>
    ensures { IfOk result (λ text. text.items ≡ text_of summary.now) }
{
    let mut text = Vec::new(alloc);
    push_numbered(&mut text, b"requests ", summary.requests, b"\n")?;
    push_numbered(&mut text, b"delivered ", summary.delivered, b"\n")?;
    push_numbered(&mut text, b"refused ", summary.refused, b"\n")?;
    push_numbered(&mut text, b"removed ", summary.removed, b"\n")?;
    push_numbered(&mut text, b"missing ", summary.missing, b"\n")?;
    push_numbered(&mut text, b"octets ", summary.octets, b"\n")?;
    push_numbered(&mut text, b"messages ", summary.messages, b"\n")?;
    Ok(text)
}
