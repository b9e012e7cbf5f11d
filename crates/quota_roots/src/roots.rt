ghost use Rattle.std.specs.Prelude.{◌≡◌, ◌≤◌, ◌<◌, ◌↔◌, ℕ, length, position, All, Contains, IfSome, IsTrue, IsFalse, IfOk, IsErrOf, vec_len, codes, bytes_eq};
ghost use Rattle.std.specs.List.{list_all};
ghost use Rattle.std.specs.Option.{option_map};
ghost use Rattle.quota_roots.specs.Copies.{GivesCopy};
ghost use Rattle.quota_roots.specs.Governing.{governs_at, governing, gaining, gainers, gains_by};
ghost use Rattle.quota_roots.specs.RootSets.{has_root};
ghost use Rattle.quota_units.specs.Bytes.{is_printable};
ghost use Rattle.quota_roots.specs.RootLists.{first_bad_name, first_double, has_name, is_prefix_at, is_root_at, is_root_name, name_at, root_named, AreRoots, IsBadName, IsDouble, IsTooMany};

use super::mailbox::is_mailbox_name;
use super::root::RootSpec;
use super::root_set::RootSet;
use quota_units::{Name, NoMemory, is_printable};
use std::alloc::Global;
use std::marker::Model;
use thiserror::Error;

/// The most quota roots that an account has.
pub const MAX_ROOTS: u32 = 4;

/// Why a list of quota roots is refused. Places count from 0.
#[derive(Clone, Copy, Debug, PartialEq, Eq, Error)]
pub enum RootsError {
    /// There are more than 4 roots.
    #[error("there are at most 4 quota roots, not {count}")]
    TooMany { count: usize },
    /// The root at this place has a name or a prefix that it may not have, or lacks a prefix that
    /// it needs.
    #[error("quota root {at} has a wrong name or prefix")]
    BadName { at: u32 },
    /// The root at this place has the name of an earlier root.
    #[error("quota root {at} has the name of one before it")]
    Double { at: u32 },
}

fn first_bad_name(specs: &[RootSpec]) -> Option<usize>
    ensures value { result ≡ first_bad_name specs.now }
    ensures within { IfSome result (λ at. at < length specs.now) }
{
    specs
        .iter()
        .enumerate()
        .position(|(at, spec)| !is_root_at(at, spec))
}

fn is_root_at(root: usize, spec: &RootSpec) -> bool
    ensures { result ≡ is_root_at root spec.now }
{
    is_root_name(spec.name.as_slice()) && is_prefix_at(root, &spec.prefix)
}

/// Whether this may be the name of a root: at most 64 bytes from 0x20 to 0x7E.
pub fn is_root_name(name: &[u8]) -> bool
    ensures { result ≡ is_root_name name.now }
{
    name.len() <= 64 && is_printed(name)
}

fn is_printed(text: &[u8]) -> bool
    ensures { result ≡ list_all is_printable text.now }
{
    text.iter().all(|byte| is_printable(*byte))
}

fn is_prefix_at(root: usize, prefix: &Option<Name>) -> bool
    ensures { result ≡ is_prefix_at root prefix.now }
{
    match prefix {
        None => root == 0,
        Some(name) => {
            let prefix = name.as_slice();
            root != 0 && is_mailbox_name(prefix) && prefix != b"Trash".as_slice()
        }
    }
}

fn has_name(specs: &[RootSpec], name: &[u8]) -> bool
    ensures { result ≡ has_name specs.now name.now }
{
    specs.iter().any(|spec| spec.name.as_slice() == name)
}

fn root_named(specs: &[RootSpec], name: &[u8]) -> Option<usize>
    ensures { result ≡ root_named specs.now name.now }
{
    specs.iter().position(|spec| spec.name.as_slice() == name)
}

/// The place of the first root that has the name of an earlier root. Places count from 0.
#[tactic(auto, using(crate::proofs::ListLemmas::double_here, crate::proofs::ListLemmas::double_nowhere))]
pub fn first_double(specs: &[RootSpec]) -> Option<usize>
    ensures value { result ≡ first_double specs.now }
    ensures within { IfSome result (λ at. at < length specs.now) }
{
    for (at, spec) in specs.iter().enumerate() {
        if has_name(&specs[..at], spec.name.as_slice()) {
            return Some(at);
        }
    }
    None
}

#[tactic(auto, using(crate::proofs::GoverningLemmas::governing_more, crate::proofs::GoverningLemmas::governs_at_get_or, crate::proofs::GoverningLemmas::all_below))]
fn roots_of(specs: &[RootSpec], mailbox: &[u8]) -> RootSet
    requires { length specs.now ≤ 4 }
    ensures { result ≡ governing specs.now mailbox.now }
{
    let mut roots = RootSet::none();
    for (root, spec) in specs.iter().enumerate() {
        if spec.governs(mailbox) {
            roots = roots.with(root as u32);
        }
    }
    roots
}

#[tactic(auto, using(crate::proofs::GoverningLemmas::gaining_one, crate::proofs::GoverningLemmas::gaining_none, crate::proofs::GoverningLemmas::gaining_all_below))]
fn gained(specs: &[RootSpec], from: &[u8], to: &[u8]) -> RootSet
    requires { length specs.now ≤ 4 }
    ensures value { result ≡ gaining specs.now from.now to.now }
    ensures members { (root : ℕ) → Contains result root ↔ (IsTrue (governs_at specs.now root to.now)
        × IsFalse (governs_at specs.now root from.now)) }
{
    let mut roots = RootSet::none();
    for (root, spec) in specs.iter().enumerate() {
        if spec.gains(from, to) {
            roots = roots.with(root as u32);
        }
    }
    roots
}

fn copy_specs(alloc: Global, specs: &[RootSpec]) -> Result<Vec<RootSpec>, NoMemory>
    ensures { IfOk result (λ copy. copy.items ≡ specs.now) }
{
    let mut copy = Vec::new(alloc);
    for spec in specs {
        copy.push(spec.copy(alloc)?)?;
    }
    Ok(copy)
}

/// The quota roots of an account: 1 to 4, each with a name of its own. A root's number is its
/// place, counted from 0.
#[derive(Debug, Drop)]
pub struct Roots {
    specs: Vec<RootSpec>,
}

impl Model for Roots {
    ghost use Rattle.std.specs.Prelude.{List};
    ghost use Rattle.quota_roots.specs.declared.root.RootSpec.{RootSpec};
    ghost use Rattle.quota_roots.specs.RootLists.{AreRoots};

    ghost Value = { List RootSpec };

    ghost view = { λ r. r.specs.items };

    ghost invariant = { λ r. AreRoots r.specs.items };
}

impl Roots {
    /// The roots of this list.
    ///
    /// Root 0 must have no prefix, and the prefix of each other root must be a mailbox name other
    /// than `Trash`. A root's name is at most 64 bytes from 0x20 to 0x7E.
    ///
    /// # Errors
    ///
    /// `TooMany` if there are more than 4 roots; else `BadName` for the first root whose name or
    /// prefix breaks these rules; else `Double` for the first root that has the name of an earlier
    /// root.
    pub fn new(specs: Vec<RootSpec>) -> Result<Roots, RootsError>
        requires { 0 < vec_len specs }
        ensures ok { IfOk result (λ roots. roots ≡ specs.items) }
        ensures too_many { (count : ℕ) → IsErrOf result (RootsError.TooMany count)
            ↔ IsTooMany specs.items count }
        ensures bad_name { (at : ℕ) → IsErrOf result (RootsError.BadName at)
            ↔ IsBadName specs.items at }
        ensures double { (at : ℕ) → IsErrOf result (RootsError.Double at)
            ↔ IsDouble specs.items at }
    {
        if specs.len() > MAX_ROOTS as usize {
            return Err(RootsError::TooMany { count: specs.len() });
        }
        if let Some(at) = first_bad_name(&specs) {
            return Err(RootsError::BadName { at: at as u32 });
        }
        if let Some(at) = first_double(&specs) {
            return Err(RootsError::Double { at: at as u32 });
        }
        Ok(Roots { specs })
    }

    /// An equal list of roots.
    ///
    /// # Errors
    ///
    /// `NoMemory` if memory runs out.
    pub fn copy(&self, alloc: Global) -> Result<Roots, NoMemory>
        ensures { GivesCopy self.now result }
    {
        Ok(Roots {
            specs: copy_specs(alloc, &self.specs)?,
        })
    }

    /// How many roots there are: 1 to 4.
    pub fn count(&self) -> u32
        ensures value { result ≡ length self.now }
        ensures roots { AreRoots self.now }
    {
        self.specs.len() as u32
    }

    /// The name of the root of this number.
    pub fn name(&self, root: u32) -> &[u8]
        requires { root < length self.now }
        ensures { result.now ≡ name_at self.now root }
    {
        self.specs[root as usize].name.as_slice()
    }

    /// The number of the root of this name.
    pub fn find(&self, name: &[u8]) -> Option<u32>
        ensures { result ≡ root_named self.now name.now }
    {
        root_named(&self.specs, name).map(|at| at as u32)
    }

    /// Whether the root of this number governs the mailbox of this name.
    pub fn governs(&self, root: u32, mailbox: &[u8]) -> bool
        requires { root < length self.now }
        ensures { result ≡ governs_at self.now root mailbox.now }
    {
        self.specs[root as usize].governs(mailbox)
    }

    /// The roots that govern the mailbox of this name.
    #[tactic(auto, using(crate::proofs::GoverningLemmas::governing_members, crate::proofs::GoverningLemmas::all_below))]
    pub fn roots_of(&self, mailbox: &[u8]) -> RootSet
        ensures value { result ≡ governing self.now mailbox.now }
        ensures members { (root : ℕ) → Contains result root
            ↔ IsTrue (governs_at self.now root mailbox.now) }
        ensures below { All (λ root. root < length self.now) result }
    {
        roots_of(&self.specs, mailbox)
    }

    /// The roots that govern the mailbox `to` and not the mailbox `from`: those that gain a message
    /// when it moves from `from` to `to`.
    #[tactic(auto, using(crate::proofs::GoverningLemmas::gaining_all_below))]
    pub fn gained(&self, from: &[u8], to: &[u8]) -> RootSet
        ensures value { result ≡ gaining self.now from.now to.now }
        ensures members { (root : ℕ) → Contains result root ↔ (IsTrue
            (governs_at self.now root to.now) × IsFalse (governs_at self.now root from.now)) }
        ensures below { All (λ root. root < length self.now) result }
    {
        gained(&self.specs, from, to)
    }

    /// The roots that gain a message when it moves from the mailbox `from` to the mailbox `to`. If
    /// `from` is `None`, the message is delivered to `to`, and every root that governs `to` gains
    /// it.
    pub fn gainers(&self, from: Option<&[u8]>, to: &[u8]) -> RootSet
        ensures value { result ≡ gainers self.now (option_map (λ m. m.now) from.entry) to.now }
        ensures members { (root : ℕ) → has_root result root
            ≡ gains_by self.now (option_map (λ m. m.now) from.entry) to.now root }
        ensures below { All (λ root. root < length self.now) result }
    {
        match from {
            None => self.roots_of(to),
            Some(from) => self.gained(from, to),
        }
    }
}
