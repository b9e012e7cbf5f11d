// The lines of quota roots.
ghost use Rattle.std.specs.Prelude.{◌≡◌, ◌++◌, ◌<◌, length, OnOk};
ghost use Rattle.std.specs.List.{All, flat_map};
ghost use Rattle.imap_front.specs.Texts.{resource, storage, message, resources};
ghost use Rattle.imap_front.specs.Texts.{quota_line, root_line, root_after_space, quota_root_line};

use crate::texts::push_number;
use account_core::RootRow;
use imap_grammar::push_astring;
use quota_roots::Roots;
use quota_units::units_up;
use std::alloc::AllocError;

/// Appends a resource's name, usage and limit.
#[inline(always)]
fn push_resource(out: &mut Vec<u8>, name: &[u8], usage: u64, limit: u64) -> Result<(), AllocError>
    ensures { OnOk result (out.new.items ≡ out.old.items ++ resource name.now usage limit) }
{
    out.extend_from_slice(name)?;
    out.extend_from_slice(b" ")?;
    push_number(out, usage)?;
    out.extend_from_slice(b" ")?;
    push_number(out, limit)
}

fn push_storage(out: &mut Vec<u8>, octets: u64, limit: u64) -> Result<(), AllocError>
    ensures { OnOk result (out.new.items ≡ out.old.items ++ storage octets limit) }
{
    push_resource(out, b"STORAGE", units_up(octets), units_up(limit))
}

fn push_message(out: &mut Vec<u8>, count: u64, limit: u64) -> Result<(), AllocError>
    ensures { OnOk result (out.new.items ≡ out.old.items ++ message count limit) }
{
    push_resource(out, b"MESSAGE", count, limit)
}

/// Appends each resource that has a limit.
fn push_resources(out: &mut Vec<u8>, row: &RootRow) -> Result<(), AllocError>
    ensures { OnOk result (out.new.items ≡ out.old.items
        ++ resources row.now.octets row.now.count row.now.limits.octets row.now.limits.count) }
{
    match (row.limits.octets(), row.limits.count()) {
        (None, None) => Ok(()),
        (Some(limit), None) => push_storage(out, row.octets, limit),
        (None, Some(limit)) => push_message(out, row.count, limit),
        (Some(most), Some(limit)) => {
            push_storage(out, row.octets, most)?;
            out.extend_from_slice(b" ")?;
            push_message(out, row.count, limit)
        }
    }
}

/// Appends the untagged line of the root of this name.
fn push_quota_line(out: &mut Vec<u8>, name: &[u8], row: &RootRow) -> Result<(), AllocError>
    ensures { OnOk result (out.new.items ≡ out.old.items ++ quota_line name.now row.now) }
{
    out.extend_from_slice(b"* QUOTA ")?;
    push_astring(out, name)?;
    out.extend_from_slice(b" (")?;
    push_resources(out, row)?;
    out.extend_from_slice(b")\r\n")
}

/// Appends the untagged line of a root of the account.
#[inline(always)]
pub fn push_root_line(out: &mut Vec<u8>, roots: &Roots, row: &RootRow) -> Result<(), AllocError>
    requires { row.now.root < length roots.now }
    ensures { OnOk result (out.new.items ≡ out.old.items ++ root_line roots.now row.now) }
{
    push_quota_line(out, roots.name(row.root), row)
}

/// Appends a space and the name of a root of the account.
fn push_root_after_space(out: &mut Vec<u8>, roots: &Roots, row: &RootRow) -> Result<(), AllocError>
    requires { row.now.root < length roots.now }
    ensures { OnOk result
        (out.new.items ≡ out.old.items ++ root_after_space roots.now row.now) }
{
    out.extend_from_slice(b" ")?;
    push_astring(out, roots.name(row.root))
}

/// Appends the untagged lines of these roots.
#[tactic(auto, using(crate::proofs::Rows::rows_none, crate::proofs::Rows::rows_more, crate::proofs::Rows::rows_all))]
pub fn push_root_lines(out: &mut Vec<u8>, roots: &Roots, rows: &[RootRow]) -> Result<(), AllocError>
    requires { All (λ row. row.root < length roots.now) rows.now }
    ensures { OnOk result
        (out.new.items ≡ out.old.items ++ flat_map (root_line roots.now) rows.now) }
{
    for (i, row) in rows.iter().enumerate() {
        push_root_line(out, roots, row)?;
    }
    Ok(())
}

/// Appends the names of these roots, each after a space.
#[tactic(auto, using(crate::proofs::Rows::rows_none, crate::proofs::Rows::rows_more, crate::proofs::Rows::rows_all))]
fn push_root_names(out: &mut Vec<u8>, roots: &Roots, rows: &[RootRow]) -> Result<(), AllocError>
    requires { All (λ row. row.root < length roots.now) rows.now }
    ensures { OnOk result
        (out.new.items ≡ out.old.items ++ flat_map (root_after_space roots.now) rows.now) }
{
    for (i, row) in rows.iter().enumerate() {
        push_root_after_space(out, roots, row)?;
    }
    Ok(())
}

/// Appends the untagged line of a mailbox and the roots that govern it.
pub fn push_quota_root_line(
    out: &mut Vec<u8>,
    roots: &Roots,
    mailbox: &[u8],
    rows: &[RootRow],
) -> Result<(), AllocError>
    requires { All (λ row. row.root < length roots.now) rows.now }
    ensures { OnOk result
        (out.new.items ≡ out.old.items ++ quota_root_line roots.now mailbox.now rows.now) }
{
    out.extend_from_slice(b"* QUOTAROOT ")?;
    push_astring(out, mailbox)?;
    push_root_names(out, roots, rows)?;
    out.extend_from_slice(b"\r\n")
}
