// The lines of what a mailbox has.
ghost use Rattle.std.specs.Prelude.{◌≡◌, ◌++◌, OnOk};
ghost use Rattle.std.specs.List.{flat_map};
ghost use Rattle.imap_front.specs.Texts.{item_name, item_value, item_text, item_after_space, items_text, status_line};

use crate::texts::push_number;
use imap_grammar::{StatusItem, push_astring};
use std::alloc::AllocError;

/// What a mailbox has: its messages, those that are not seen and those that are deleted; the octets
/// of the deleted ones, and the octets of all.
#[derive(Clone, Copy)]
pub struct MailboxCounts {
    pub messages: u64,
    pub unseen: u64,
    pub deleted: u64,
    pub deleted_octets: u64,
    pub octets: u64,
}

/// The name of an item, in upper case.
fn item_name(item: StatusItem) -> &'static [u8]
    ensures { result.now ≡ item_name item }
{
    match item {
        StatusItem::Messages => b"MESSAGES",
        StatusItem::Unseen => b"UNSEEN",
        StatusItem::Deleted => b"DELETED",
        StatusItem::DeletedStorage => b"DELETED-STORAGE",
        StatusItem::Size => b"SIZE",
    }
}

/// What a mailbox has of an item.
fn item_value(item: StatusItem, counts: MailboxCounts) -> u64
    ensures { result ≡ item_value item counts }
{
    match item {
        StatusItem::Messages => counts.messages,
        StatusItem::Unseen => counts.unseen,
        StatusItem::Deleted => counts.deleted,
        StatusItem::DeletedStorage => counts.deleted_octets,
        StatusItem::Size => counts.octets,
    }
}

/// Appends an item and its value.
fn push_item(
    out: &mut Vec<u8>,
    counts: MailboxCounts,
    item: Option<StatusItem>,
) -> Result<(), AllocError>
    ensures { OnOk result (out.new.items ≡ out.old.items ++ item_text counts item) }
{
    match item {
        Some(item) => {
            out.extend_from_slice(item_name(item))?;
            out.extend_from_slice(b" ")?;
            push_number(out, item_value(item, counts))
        }
        // STATUS with such an item is refused before it comes to this.
        None => Ok(()),
    }
}

/// Appends a space, an item and its value.
fn push_item_after_space(
    out: &mut Vec<u8>,
    counts: MailboxCounts,
    item: Option<StatusItem>,
) -> Result<(), AllocError>
    ensures { OnOk result (out.new.items ≡ out.old.items ++ item_after_space counts item) }
{
    out.extend_from_slice(b" ")?;
    push_item(out, counts, item)
}

/// Appends these items and their values, each after a space.
#[tactic(auto, using(crate::proofs::Rows::rows_none, crate::proofs::Rows::rows_more, crate::proofs::Rows::rows_all))]
fn push_more_items(
    out: &mut Vec<u8>,
    counts: MailboxCounts,
    items: &[Option<StatusItem>],
) -> Result<(), AllocError>
    ensures { OnOk result
        (out.new.items ≡ out.old.items ++ flat_map (item_after_space counts) items.now) }
{
    for (i, item) in items.iter().enumerate() {
        push_item_after_space(out, counts, *item)?;
    }
    Ok(())
}

/// Appends these items and their values, separated by spaces.
fn push_items(
    out: &mut Vec<u8>,
    counts: MailboxCounts,
    items: &[Option<StatusItem>],
) -> Result<(), AllocError>
    ensures { OnOk result (out.new.items ≡ out.old.items ++ items_text counts items.now) }
{
    match items {
        [] => Ok(()),
        [first, more @ ..] => {
            push_item(out, counts, *first)?;
            push_more_items(out, counts, more)
        }
    }
}

/// Appends the untagged line of a mailbox and these items.
pub fn push_status_line(
    out: &mut Vec<u8>,
    mailbox: &[u8],
    items: &[Option<StatusItem>],
    counts: MailboxCounts,
) -> Result<(), AllocError>
    ensures { OnOk result
        (out.new.items ≡ out.old.items ++ status_line mailbox.now items.now counts) }
{
    out.extend_from_slice(b"* STATUS ")?;
    push_astring(out, mailbox)?;
    out.extend_from_slice(b" (")?;
    push_items(out, counts, items)?;
    out.extend_from_slice(b")\r\n")
}
