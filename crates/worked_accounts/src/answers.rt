// What calls are answered, in the words that the program prints.
use crate::lines::text_of;
use crate::trouble::Trouble;
use account_core::{Reply, RootRow, RootRows, RootSets, StepError};
use quota_roots::RootSet;
use quota_units::{Resource, Totals};
use std::alloc::Global;

/// The answer to a call.
pub fn answer_text(alloc: Global, answer: &Result<Reply, StepError>) -> Result<String, Trouble> {
    match answer {
        Ok(reply) => reply_text(alloc, reply),
        Err(fault) => fault_text(alloc, fault),
    }
}

/// The call found no memory, the store failed, or the journal is full.
pub fn fault_text(alloc: Global, fault: &StepError) -> Result<String, Trouble> {
    match fault {
        StepError::NoMemory => text_of(alloc, "no memory"),
        StepError::Store => text_of(alloc, "store failed"),
        StepError::JournalFull { limit } => Ok(format!(in alloc; "journal full: {limit}")?),
    }
}

fn reply_text(alloc: Global, reply: &Reply) -> Result<String, Trouble> {
    match reply {
        Reply::NoMailbox => text_of(alloc, "no mailbox"),
        Reply::Over { root, resource } => over_text(alloc, *root, *resource),
        Reply::Delivered { number } => Ok(format!(in alloc; "delivered {number}")?),
        Reply::Fits => text_of(alloc, "fits"),
        Reply::NoMessage => text_of(alloc, "no message"),
        Reply::Removed => text_of(alloc, "removed"),
        Reply::Marked => text_of(alloc, "marked"),
        Reply::NameTaken => text_of(alloc, "name taken"),
        Reply::Moved => text_of(alloc, "moved"),
        Reply::NoRoot => text_of(alloc, "no root"),
        Reply::Quota(row) | Reply::LimitsSet(row) => row_text(alloc, row),
        Reply::Roots(rows) => rows_text(alloc, rows),
        _ => count_text(alloc, reply),
    }
}

/// The status of a mailbox, and the answers to the parts of a scan.
fn count_text(alloc: Global, reply: &Reply) -> Result<String, Trouble> {
    match reply {
        Reply::Status {
            messages,
            unseen,
            deleted,
            deleted_octets,
            octets,
        } => {
            let all = format!(in alloc; "messages {messages} octets {octets}")?;
            Ok(format!(in alloc;
                "{all} unseen {unseen} deleted {deleted} octets {deleted_octets}"
            )?)
        }
        Reply::Begun { generation, sets } => begun_text(alloc, *generation, sets),
        Reply::NoPart => text_of(alloc, "no part"),
        Reply::Part {
            generation,
            octets,
            count,
        } => Ok(format!(in alloc; "generation {generation} octets {octets} messages {count}")?),
        Reply::Changed { then, now } => Ok(format!(in alloc; "changed from {then} to {now}")?),
        _ => text_of(alloc, "another reply"),
    }
}

fn over_text(alloc: Global, root: u32, resource: Resource) -> Result<String, Trouble> {
    match resource {
        Resource::Storage => Ok(format!(in alloc; "over: storage of root {root}")?),
        Resource::Message => Ok(format!(in alloc; "over: messages of root {root}")?),
    }
}

/// A root's number, its usage, and each limit that it has.
fn row_text(alloc: Global, row: &RootRow) -> Result<String, Trouble> {
    let octets = used_text(alloc, row.octets, row.limits.octets())?;
    let count = used_text(alloc, row.count, row.limits.count())?;
    Ok(format!(in alloc; "root {} octets {octets} messages {count}", row.root)?)
}

/// What is used, and of how much if there is a limit.
fn used_text(alloc: Global, used: u64, limit: Option<u64>) -> Result<String, Trouble> {
    match limit {
        Some(limit) => Ok(format!(in alloc; "{used} of {limit}")?),
        None => Ok(format!(in alloc; "{used}")?),
    }
}

fn rows_text(alloc: Global, rows: &RootRows) -> Result<String, Trouble> {
    let mut text = text_of(alloc, "roots:")?;
    for row in rows.as_slice() {
        let row = row_text(alloc, row)?;
        let shown = format!(in alloc; " [{row}]")?;
        text.push_str(shown.as_str())?;
    }
    Ok(text)
}

/// The generation, and the numbers of the roots that govern each mailbox.
fn begun_text(alloc: Global, generation: u64, sets: &RootSets) -> Result<String, Trouble> {
    let mut text = format!(in alloc; "generation {generation} roots:")?;
    for set in sets.as_slice() {
        let set = set_text(alloc, *set)?;
        text.push_str(set.as_str())?;
    }
    Ok(text)
}

fn set_text(alloc: Global, set: RootSet) -> Result<String, Trouble> {
    let mut text = text_of(alloc, " [")?;
    for root in 0..4 {
        if set.has(root) {
            let number = format!(in alloc; " {root}")?;
            text.push_str(number.as_str())?;
        }
    }
    text.push_str(" ]")?;
    Ok(text)
}

/// A usage.
pub fn totals_text(alloc: Global, totals: Totals) -> Result<String, Trouble> {
    Ok(format!(in alloc; "octets {} messages {}", totals.octets, totals.count)?)
}
