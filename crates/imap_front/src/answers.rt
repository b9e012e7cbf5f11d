// The answers to commands that make a call. Each is appended whole unless memory runs out.
ghost use Rattle.std.specs.Prelude.{◌≡◌, ◌++◌, OnOk};
ghost use Rattle.imap_front.specs.Answers.{get_quota_text, get_quota_root_text, set_quota_text};
ghost use Rattle.imap_front.specs.Answers.{status_text, append_text, kind_of, answer_text, HasRootsOf};
ghost use Rattle.account_core.specs.History.{replied};

use crate::quota_lines::{push_quota_root_line, push_root_line, push_root_lines};
use crate::status_lines::{MailboxCounts, push_status_line};
use crate::texts::{
    APPENDED, NO_MAILBOX, NO_ROOT, OVER_QUOTA, TRY_CREATE, UNAVAILABLE, push_tagged,
};
use account_core::Reply;
use imap_grammar::StatusItem;
use quota_roots::Roots;
use std::alloc::AllocError;

/// A command that makes a call, with the part of it that the answer repeats.
#[derive(Clone, Copy)]
pub enum Kind<'a> {
    GetQuota,
    /// The mailbox has this name, in its canonical spelling.
    GetQuotaRoot {
        mailbox: &'a [u8],
    },
    SetQuota,
    /// The mailbox has this name, in its canonical spelling. `None` is an item that this service
    /// does not have.
    Status {
        mailbox: &'a [u8],
        items: &'a [Option<StatusItem>],
    },
    Append,
}

/// Appends the answer to GETQUOTA, given the reply to its call.
fn push_get_quota(
    out: &mut Vec<u8>,
    roots: &Roots,
    tag: &[u8],
    reply: &Reply,
) -> Result<(), AllocError>
    requires { HasRootsOf roots.now reply.now }
    ensures { OnOk result (out.new.items
        ≡ out.old.items ++ get_quota_text roots.now tag.now (replied reply.now)) }
{
    match reply {
        Reply::NoRoot => push_tagged(out, tag, NO_ROOT),
        Reply::Quota(row) => {
            push_root_line(out, roots, row)?;
            push_tagged(out, tag, b"OK GETQUOTA completed")
        }
        // The call gets no other reply.
        _ => push_tagged(out, tag, UNAVAILABLE),
    }
}

/// Appends the answer to GETQUOTAROOT of this mailbox, given the reply to its call.
fn push_get_quota_root(
    out: &mut Vec<u8>,
    roots: &Roots,
    mailbox: &[u8],
    tag: &[u8],
    reply: &Reply,
) -> Result<(), AllocError>
    requires { HasRootsOf roots.now reply.now }
    ensures { OnOk result (out.new.items ≡ out.old.items
        ++ get_quota_root_text roots.now mailbox.now tag.now (replied reply.now)) }
{
    match reply {
        Reply::Roots(rows) => {
            push_quota_root_line(out, roots, mailbox, rows.as_slice())?;
            push_root_lines(out, roots, rows.as_slice())?;
            push_tagged(out, tag, b"OK GETQUOTAROOT completed")
        }
        // The call gets no other reply.
        _ => push_tagged(out, tag, UNAVAILABLE),
    }
}

/// Appends the answer to SETQUOTA, given the reply to its call.
fn push_set_quota(
    out: &mut Vec<u8>,
    roots: &Roots,
    tag: &[u8],
    reply: &Reply,
) -> Result<(), AllocError>
    requires { HasRootsOf roots.now reply.now }
    ensures { OnOk result (out.new.items
        ≡ out.old.items ++ set_quota_text roots.now tag.now (replied reply.now)) }
{
    match reply {
        Reply::NoRoot => push_tagged(out, tag, NO_ROOT),
        Reply::LimitsSet(row) => {
            push_root_line(out, roots, row)?;
            push_tagged(out, tag, b"OK SETQUOTA completed")
        }
        // The call gets no other reply.
        _ => push_tagged(out, tag, UNAVAILABLE),
    }
}

/// Appends the answer to STATUS of this mailbox and these items, given the reply to its call.
fn push_status(
    out: &mut Vec<u8>,
    mailbox: &[u8],
    items: &[Option<StatusItem>],
    tag: &[u8],
    reply: &Reply,
) -> Result<(), AllocError>
    ensures { OnOk result (out.new.items
        ≡ out.old.items ++ status_text mailbox.now items.now tag.now (replied reply.now)) }
{
    match reply {
        Reply::NoMailbox => push_tagged(out, tag, NO_MAILBOX),
        Reply::Status {
            messages,
            unseen,
            deleted,
            deleted_octets,
            octets,
        } => {
            let counts = MailboxCounts {
                messages: *messages,
                unseen: *unseen,
                deleted: *deleted,
                deleted_octets: *deleted_octets,
                octets: *octets,
            };
            push_status_line(out, mailbox, items, counts)?;
            push_tagged(out, tag, b"OK STATUS completed")
        }
        // The call gets no other reply.
        _ => push_tagged(out, tag, UNAVAILABLE),
    }
}

/// Appends the answer to APPEND, given the reply to its call.
fn push_append(out: &mut Vec<u8>, tag: &[u8], reply: &Reply) -> Result<(), AllocError>
    ensures { OnOk result
        (out.new.items ≡ out.old.items ++ append_text tag.now (replied reply.now)) }
{
    match reply {
        Reply::NoMailbox => push_tagged(out, tag, TRY_CREATE),
        Reply::Over { .. } => push_tagged(out, tag, OVER_QUOTA),
        Reply::Delivered { .. } => push_tagged(out, tag, APPENDED),
        // The call gets no other reply.
        _ => push_tagged(out, tag, UNAVAILABLE),
    }
}

/// Appends the answer to a command of this kind, given the reply to its call.
#[inline(always)]
pub fn push_answer(
    out: &mut Vec<u8>,
    roots: &Roots,
    kind: Kind<'_>,
    tag: &[u8],
    reply: &Reply,
) -> Result<(), AllocError>
    requires { HasRootsOf roots.now reply.now }
    ensures { OnOk result (out.new.items ≡ out.old.items
        ++ answer_text roots.now (kind_of kind.entry) tag.now (replied reply.now)) }
{
    match kind {
        Kind::GetQuota => push_get_quota(out, roots, tag, reply),
        Kind::GetQuotaRoot { mailbox } => push_get_quota_root(out, roots, mailbox, tag, reply),
        Kind::SetQuota => push_set_quota(out, roots, tag, reply),
        Kind::Status { mailbox, items } => push_status(out, mailbox, items, tag, reply),
        Kind::Append => push_append(out, tag, reply),
    }
}
