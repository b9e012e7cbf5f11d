ghost use Rattle.std.specs.Prelude.{◌≡◌, ◌↔◌, codes, IfOk, IfErr, true, false};
ghost use Rattle.std.specs.List.{list_any};
ghost use Rattle.std.specs.Str.Iter.{HasSubslice};
ghost use Rattle.keeper_fs.specs.Names.{is_separator, is_plain, is_file_name};

use memchr::memchr2;
use quota_units::Failed;

/// The text of a name of one file or folder.
///
/// # Errors
///
/// `Failed` if the name is not UTF-8, is empty, begins with `.`, or has `/` or byte 0.
#[tactic(auto, using(crate::proofs::Texts::is_text, crate::proofs::Texts::is_no_text))]
pub(crate) fn file_name(name: &[u8]) -> Result<&str, Failed>
    ensures text { IfOk result (λ text. text.now ≡ name.now) }
    ensures ok { IfOk result (λ _. is_file_name name.now ≡ true) }
    ensures refused { IfErr result (λ _. is_file_name name.now ≡ false) }
{
    match str::from_utf8(name) {
        Ok(text) if is_plain(name) => Ok(text),
        _ => Err(Failed),
    }
}

/// Whether a name is not empty, does not begin with `.`, and has neither `/` nor byte 0.
fn is_plain(name: &[u8]) -> bool
    ensures { result ≡ is_plain name.now }
{
    !name.is_empty() && !name.starts_with(b".") && !has_separator(name)
}

#[tactic(auto, using(crate::proofs::NameLemmas::found, crate::proofs::NameLemmas::missed))]
fn has_separator(name: &[u8]) -> bool
    ensures { result ≡ list_any is_separator name.now }
{
    match memchr2(0, b'/', name) {
        Some(_) => true,
        None => false,
    }
}

/// Whether a name has `:2,`, which its flags come after. There may be no flags after it.
#[tactic(auto, using(std::proofs::lemmas::Str::Pattern::contains_text))]
pub(crate) fn has_flags(name: &str) -> bool
    ensures { (result ≡ true) ↔ HasSubslice name.now (codes ":2,") }
{
    name.contains(":2,")
}
