ghost use Rattle.std.specs.Prelude.{◌≡◌, Some};
ghost use Rattle.accounts_file.specs.Keys.{word};

use std::fmt;

/// The keys of an accounts file, in the order in which they are read.
#[derive(Clone, Copy, Debug, PartialEq, Eq)]
pub enum Key {
    /// The port of the IMAP listener: 1 to 65535.
    Imap,
    /// The port of the JMAP listener: 1 to 65535.
    Jmap,
    /// The port of the policy listener: 1 to 65535.
    Policy,
    /// The workers of each listener: 1 to 16.
    Workers,
    /// The list of accounts: 1 to 32 tables.
    Account,
    /// An account's name: a JMAP Id (RFC 8620, section 1.2) of at most 64 characters that does not
    /// begin with `-`.
    AccountName,
    /// An account's password: 1 to 64 bytes from 0x21 to 0x7E.
    Password,
    /// An account's token: 1 to 64 bytes from 0x21 to 0x7E.
    Token,
    /// Whether an account may set limits.
    Admin,
    /// The most entries of an account's history: 1 to 524288.
    Journal,
    /// The addresses whose mail an account gets: texts of 1 to 255 bytes.
    Recipients,
    /// The names of an account's mailboxes.
    Mailboxes,
    /// The list of an account's quota roots: 1 to 4 tables.
    Root,
    /// A quota root's name: at most 64 bytes from 0x20 to 0x7E.
    RootName,
    /// The mailbox that a quota root other than the first governs, with the mailboxes below it.
    Prefix,
    /// A quota root's limit in units of 1024 octets: 1 to 8796093022207.
    Storage,
    /// A quota root's limit in messages: 1 to 8796093022207.
    Messages,
}

impl Key {
    /// The key's word in the file. The names of accounts and of quota roots share one word.
    pub fn word(self) -> &'static str
        ensures { result.now ≡ word self }
    {
        match self {
            Key::Imap => "imap",
            Key::Jmap => "jmap",
            Key::Policy => "policy",
            Key::Workers => "workers",
            Key::Account => "account",
            Key::AccountName | Key::RootName => "name",
            Key::Password => "password",
            Key::Token => "token",
            Key::Admin => "admin",
            Key::Journal => "journal",
            Key::Recipients => "recipients",
            Key::Mailboxes => "mailboxes",
            Key::Root => "root",
            Key::Prefix => "prefix",
            Key::Storage => "storage",
            Key::Messages => "messages",
        }
    }
}

impl fmt::Display for Key {
    ghost output = { λ key. Some (word key) };

    fn fmt<W: fmt::Write>(&self, f: &mut fmt::Formatter<W>) -> fmt::Result {
        f.write_str(self.word())
    }
}
