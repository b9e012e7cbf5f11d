ghost use Rattle.std.specs.Prelude.{◌≡◌};
ghost use Rattle.imap_grammar.specs.Commands.{word_of, is_allowed};

/// The word of a command.
#[derive(Clone, Copy, Debug, PartialEq, Eq)]
pub enum Word {
    Capability,
    Noop,
    Logout,
    Login,
    GetQuota,
    GetQuotaRoot,
    SetQuota,
    Status,
    Append,
}

/// The command that these letters name, in either case.
#[inline(always)]
pub fn word_of(letters: &[u8]) -> Option<Word>
    ensures { result ≡ word_of letters.now }
{
    if letters.eq_ignore_ascii_case(b"capability") {
        Some(Word::Capability)
    } else if letters.eq_ignore_ascii_case(b"noop") {
        Some(Word::Noop)
    } else if letters.eq_ignore_ascii_case(b"logout") {
        Some(Word::Logout)
    } else if letters.eq_ignore_ascii_case(b"login") {
        Some(Word::Login)
    } else if letters.eq_ignore_ascii_case(b"getquota") {
        Some(Word::GetQuota)
    } else if letters.eq_ignore_ascii_case(b"getquotaroot") {
        Some(Word::GetQuotaRoot)
    } else if letters.eq_ignore_ascii_case(b"setquota") {
        Some(Word::SetQuota)
    } else if letters.eq_ignore_ascii_case(b"status") {
        Some(Word::Status)
    } else if letters.eq_ignore_ascii_case(b"append") {
        Some(Word::Append)
    } else {
        None
    }
}

/// Whether the command is allowed. `login` says whether the session is logged in.
pub fn is_allowed(word: Word, login: bool) -> bool
    ensures { result ≡ is_allowed word login }
{
    match word {
        Word::Capability | Word::Noop | Word::Logout => true,
        Word::Login => !login,
        Word::GetQuota | Word::GetQuotaRoot | Word::SetQuota | Word::Status | Word::Append => login,
    }
}
