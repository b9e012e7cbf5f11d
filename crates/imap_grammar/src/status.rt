// The items that STATUS asks for.
ghost use Rattle.std.specs.Prelude.{◌≡◌, ◌++◌, [], ◌∷◌, OnOk, OnErr};
ghost use Rattle.imap_grammar.specs.Reading.{Gives};
ghost use Rattle.imap_grammar.specs.Lists.{next_item};
ghost use Rattle.imap_grammar.specs.StatusItems.{item_of, status_item, status_items};

use crate::astring::plain;
use crate::readers::Stop;
use std::alloc::{AllocError, Global};
use std::marker::Model;

/// What STATUS can tell of a mailbox (RFC 9051, section 6.3.11; RFC 9208, on DELETED-STORAGE).
#[derive(Clone, Copy, Debug, PartialEq, Eq)]
pub enum StatusItem {
    /// `MESSAGES`: how many messages the mailbox has.
    Messages,
    /// `UNSEEN`: how many of them are not seen.
    Unseen,
    /// `DELETED`: how many of them are deleted.
    Deleted,
    /// `DELETED-STORAGE`: the octets of the deleted messages.
    DeletedStorage,
    /// `SIZE`: the octets of all messages.
    Size,
}

/// The items that STATUS asks for, in their order; `None` for a name of no item of this service.
#[derive(Debug, Drop)]
pub struct StatusItems {
    items: Vec<Option<StatusItem>>,
}

impl Model for StatusItems {
    ghost use Rattle.std.specs.Prelude.{List, Option};
    ghost use Rattle.imap_grammar.specs.declared.status.StatusItem.{StatusItem};

    ghost Value = { List (Option StatusItem) };

    ghost view = { λ a. a.items.items };
}

impl StatusItems {
    /// The items.
    pub fn as_slice(&self) -> &[Option<StatusItem>]
        ensures { result.now ≡ self.now }
    {
        self.items.as_slice()
    }

    fn new(alloc: Global) -> StatusItems
        ensures { result ≡ [] }
    {
        StatusItems {
            items: Vec::new(alloc),
        }
    }

    fn push(&mut self, item: Option<StatusItem>) -> Result<(), AllocError>
        ensures ok { OnOk result (self.new ≡ self.old ++ item ∷ []) }
        ensures err { OnErr result (self.new ≡ self.old) }
    {
        Ok(self.items.push(item)?)
    }
}

/// The item of this name, in either case.
fn item_of(name: &[u8]) -> Option<StatusItem>
    ensures { result ≡ item_of name.now }
{
    if name.eq_ignore_ascii_case(b"messages") {
        Some(StatusItem::Messages)
    } else if name.eq_ignore_ascii_case(b"unseen") {
        Some(StatusItem::Unseen)
    } else if name.eq_ignore_ascii_case(b"deleted") {
        Some(StatusItem::Deleted)
    } else if name.eq_ignore_ascii_case(b"deleted-storage") {
        Some(StatusItem::DeletedStorage)
    } else if name.eq_ignore_ascii_case(b"size") {
        Some(StatusItem::Size)
    } else {
        None
    }
}

/// A name of an item.
fn status_item(text: &[u8]) -> Result<(Option<StatusItem>, &[u8]), Stop>
    ensures { Gives (λ x. x.0) (λ x. x.1.now) result (status_item text.now) }
{
    let (name, rest) = plain(text)?;
    Ok((item_of(name), rest))
}

/// A space and an item, or the closing parenthesis.
fn next_status_item(text: &[u8]) -> Result<(Option<Option<StatusItem>>, &[u8]), Stop>
    ensures { Gives (λ x. x.0) (λ x. x.1.now) result (next_item status_item text.now) }
{
    match text {
        [] => Err(Stop::Short),
        [b')', rest @ ..] => Ok((None, rest)),
        [b' ', rest @ ..] => {
            let (item, rest) = status_item(rest)?;
            Ok((Some(item), rest))
        }
        _ => Err(Stop::Wrong { left: text.len() }),
    }
}

/// One item or more, separated by spaces, and the closing parenthesis.
pub fn status_items(alloc: Global, text: &[u8]) -> Result<(StatusItems, &[u8]), Stop>
    ensures { Gives (λ x. x.0) (λ x. x.1.now) result (status_items text.now) }
{
    let mut items = StatusItems::new(alloc);
    let (first, mut rest) = status_item(text)?;
    items.push(first)?;
    loop {
        let (next, more) = next_status_item(rest)?;
        match next {
            Some(item) => items.push(item)?,
            None => return Ok((items, more)),
        }
        rest = more;
    }
}
