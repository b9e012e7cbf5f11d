// The arguments of the program, after its name.
ghost use Rattle.std.specs.Prelude.{◌≡◌, ◌<◌, ◌≤◌, ◌↔◌, ℕ, [], ◌∷◌, IsTrue, IfOk, map, codes, slice_get, Some, IfSome, IfNone};
ghost use Rattle.std.specs.List.{All};
ghost use Rattle.std.specs.String.{string_bytes};
ghost use Rattle.std.specs.Fmt.{decimal};
ghost use Rattle.command_words.specs.Commands.{IsUndashed, asked_words};
ghost use Rattle.command_words.specs.Words.{IsForm, IsNoForm};

use crate::commands::{Asked, command_in};
use quota_units::{NoMemory, numeral_in};
use std::alloc::Global;

/// What the arguments ask for.
#[derive(Clone, Copy, Debug, PartialEq, Eq)]
pub enum Form<'a> {
    /// A session for the owner of an account with this many 1024-octet units of storage.
    Session { units: u64 },
    /// A session over the accounts of the accounts file. If an account is named, its owner is
    /// logged in at the start.
    Imap { account: Option<&'a [u8]> },
    /// A session of the policy protocol over the accounts of the accounts file.
    Policy,
    /// A statement of what a ledger holds.
    Check,
    /// A workload of so many requests of the policy protocol, from 1 to 4096.
    Workload { requests: u64 },
}

/// The units of storage that an argument names: 1 to 8796093022207, in decimal digits with no
/// leading zero.
fn units_in(word: &[u8]) -> Option<u64>
    ensures some { IfSome result (λ n. (word.now ≡ decimal n) × (0 < n) × (n ≤ 8796093022207)) }
    ensures none { IfNone result ((n : ℕ) → word.now ≡ decimal n → 0 < n → n ≤ 8796093022207 → ⊥) }
{
    number_to(word, 8796093022207)
}

/// The requests of a workload that an argument names: 1 to 4096, in decimal digits with no leading
/// zero.
fn requests_in(word: &[u8]) -> Option<u64>
    ensures some { IfSome result (λ n. (word.now ≡ decimal n) × (0 < n) × (n ≤ 4096)) }
    ensures none { IfNone result ((n : ℕ) → word.now ≡ decimal n → 0 < n → n ≤ 4096 → ⊥) }
{
    number_to(word, 4096)
}

/// The number from 1 to `most` that an argument spells, in decimal digits with no leading zero.
fn number_to(word: &[u8], most: u64) -> Option<u64>
    requires { most < 10000000000000000000 }
    ensures some { IfSome result (λ n. (word.now ≡ decimal n) × (0 < n) × (n ≤ most)) }
    ensures none { IfNone result ((n : ℕ) → word.now ≡ decimal n → 0 < n → n ≤ most → ⊥) }
{
    match numeral_in(word) {
        Some(n) if 0 < n && n <= most => Some(n),
        _ => None,
    }
}

/// Whether the argument is `session`.
fn is_session(word: &[u8]) -> bool
    ensures { IsTrue result ↔ (word.now ≡ codes "session") }
{
    word == b"session".as_slice()
}

/// Whether the argument is `imap`.
fn is_imap(word: &[u8]) -> bool
    ensures { IsTrue result ↔ (word.now ≡ codes "imap") }
{
    word == b"imap".as_slice()
}

/// Whether the argument is `policy`.
fn is_policy(word: &[u8]) -> bool
    ensures { IsTrue result ↔ (word.now ≡ codes "policy") }
{
    word == b"policy".as_slice()
}

/// Whether the argument is `check`.
fn is_check(word: &[u8]) -> bool
    ensures { IsTrue result ↔ (word.now ≡ codes "check") }
{
    word == b"check".as_slice()
}

/// Whether the argument is `workload`.
fn is_workload(word: &[u8]) -> bool
    ensures { IsTrue result ↔ (word.now ≡ codes "workload") }
{
    word == b"workload".as_slice()
}

/// Whether the argument begins with `-`.
fn has_dash(word: &[u8]) -> bool
    ensures { IsTrue result ↔ (slice_get word.now 0 ≡ Some 45) }
{
    match word.first() {
        Some(byte) => *byte == b'-',
        None => false,
    }
}

/// Whether no argument begins with `-`.
fn are_undashed(words: &[String]) -> bool
    ensures { IsTrue result ↔ All IsUndashed (map string_bytes words.now) }
{
    for word in words {
        if has_dash(word.as_bytes()) {
            return false;
        }
    }
    true
}

/// What a command asks for with no word after it; `None` if it is none of the program's, or takes
/// a word.
fn form_alone<'a>(command: &[u8]) -> Option<Form<'a>>
    ensures some { IfSome result (λ form. IsForm (command.now ∷ []) form) }
    ensures none { IfNone result (IsNoForm (command.now ∷ [])) }
{
    if is_imap(command) {
        return Some(Form::Imap { account: None });
    }
    if is_policy(command) {
        return Some(Form::Policy);
    }
    if is_check(command) {
        return Some(Form::Check);
    }
    None
}

/// What a command asks for with this word after it; `None` if it is none of the program's, takes no
/// word, or takes another one.
fn form_with<'a>(command: &[u8], word: &'a [u8]) -> Option<Form<'a>>
    requires { IsUndashed word.now }
    ensures some { IfSome result (λ form. IsForm (command.now ∷ word.now ∷ []) form) }
    ensures none { IfNone result (IsNoForm (command.now ∷ word.now ∷ [])) }
{
    if is_session(command) {
        return Some(Form::Session {
            units: units_in(word)?,
        });
    }
    if is_imap(command) {
        return Some(Form::Imap {
            account: Some(word),
        });
    }
    if is_workload(command) {
        return Some(Form::Workload {
            requests: requests_in(word)?,
        });
    }
    None
}

/// What the command that was asked for gives with the word after it.
fn form_asked<'a>(asked: Asked<'a>) -> Option<Form<'a>>
    requires { All IsUndashed (asked_words asked) }
    ensures some { IfSome result (λ form. IsForm (asked_words asked.entry) form) }
    ensures none { IfNone result (IsNoForm (asked_words asked.entry)) }
{
    match asked.word {
        Some(word) => form_with(asked.command.as_bytes(), word.as_bytes()),
        None => form_alone(asked.command.as_bytes()),
    }
}

/// What the arguments ask for; `None` if they are unrecognised.
///
/// `words` are the arguments after the program's name. A word that begins with `-` is refused; the
/// other words are read by `clap`, and a number is 1 to 19 decimal digits with no leading zero.
///
/// # Errors
/// `NoMemory` if memory runs out.
pub fn form_of<'a>(alloc: Global, words: &'a [String]) -> Result<Option<Form<'a>>, NoMemory>
    ensures some { IfOk result (λ found.
        IfSome found (λ form. IsForm (map string_bytes words.now) form)) }
    ensures none { IfOk result (λ found. IfNone found (IsNoForm (map string_bytes words.now))) }
{
    if !are_undashed(words) {
        return Ok(None);
    }
    match command_in(alloc, words)? {
        Some(asked) => Ok(form_asked(asked)),
        None => Ok(None),
    }
}
