ghost use Rattle.std.specs.Prelude.{◌≡◌, ◌↔◌, ℕ, IsTrue, IfSome, IsSome};
ghost use Rattle.std.specs.List.{list_all};
ghost use Rattle.quota_units.specs.Flagging.{is_among, is_flag_letter, has_flag, flags_among};

/// The flags of a message, by the letters of Maildir file names: D, F, P, R, S and T.
#[derive(Clone, Copy, Debug, PartialEq, Eq)]
pub struct Flags {
    /// D: a draft.
    pub draft: bool,
    /// F: flagged for attention.
    pub flagged: bool,
    /// P: passed on.
    pub passed: bool,
    /// R: replied to.
    pub replied: bool,
    /// S: seen.
    pub seen: bool,
    /// T: trashed, which IMAP calls deleted.
    pub trashed: bool,
}

impl Flags {
    /// The flags of these letters, which may come in any order and more than once; `None` if any
    /// other byte is among them.
    pub fn of_letters(letters: &[u8]) -> Option<Flags>
        ensures some { IsSome result ↔ IsTrue (list_all is_flag_letter letters.now) }
        ensures value { IfSome result (λ flags. flags ≡ flags_among letters.now) }
        // A flag is set exactly if its letter is among the bytes.
        ensures exact { IfSome result (λ flags. (letter : ℕ)
            → has_flag flags letter ≡ is_among letters.now letter) }
    {
        if are_flag_letters(letters) {
            Some(Flags::among(letters))
        } else {
            None
        }
    }

    /// The flags whose letters are among the bytes. Other bytes are ignored.
    pub fn among(bytes: &[u8]) -> Flags
        ensures { result ≡ flags_among bytes.now }
    {
        Flags {
            draft: bytes.contains(&b'D'),
            flagged: bytes.contains(&b'F'),
            passed: bytes.contains(&b'P'),
            replied: bytes.contains(&b'R'),
            seen: bytes.contains(&b'S'),
            trashed: bytes.contains(&b'T'),
        }
    }

    /// Whether the flag of this letter is set; false for a byte that names no flag.
    pub fn has(self, letter: u8) -> bool
        ensures { result ≡ has_flag self letter }
    {
        match letter {
            b'D' => self.draft,
            b'F' => self.flagged,
            b'P' => self.passed,
            b'R' => self.replied,
            b'S' => self.seen,
            b'T' => self.trashed,
            _ => false,
        }
    }
}

/// Whether the byte names a flag: D, F, P, R, S or T.
pub fn is_flag_letter(byte: u8) -> bool
    ensures { result ≡ is_flag_letter byte }
{
    matches!(byte, b'D' | b'F' | b'P' | b'R' | b'S' | b'T')
}

/// Whether each of the bytes names a flag.
fn are_flag_letters(bytes: &[u8]) -> bool
    ensures { result ≡ list_all is_flag_letter bytes.now }
{
    bytes.iter().all(|byte| is_flag_letter(*byte))
}
