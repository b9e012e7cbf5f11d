// Accounts files, and the files of their accounts.
use keeper::{KeepCall, KeepFail};

/// An account without limits.
pub const ANN: &str = "[[account]]
name = \"ann\"
password = \"pw\"
token = \"tok\"
admin = true
recipients = [\"ann@example.org\"]
mailboxes = [\"INBOX\", \"Lists\", \"Trash\"]
[[account.root]]
";

/// An account with 512 units of storage, and a journal of three entries.
pub const SHORT_JOURNAL: &str = "[[account]]
name = \"ann\"
password = \"pw\"
token = \"tok\"
journal = 3
[[account.root]]
storage = 512
";

/// An account with two units of storage, and one with a single unit.
pub const TWO_UNITS: &str = "[[account]]
name = \"ann\"
password = \"pw\"
token = \"tok\"
admin = true
recipients = [\"ann@example.org\"]
mailboxes = [\"INBOX\", \"Lists\", \"Trash\"]
[[account.root]]
storage = 2
";

pub const ONE_UNIT: &str = "[[account]]
name = \"ann\"
password = \"pw\"
token = \"tok\"
admin = true
recipients = [\"ann@example.org\"]
mailboxes = [\"INBOX\", \"Lists\", \"Trash\"]
[[account.root]]
storage = 1
";

/// The files of the account `ann`: the names of the messages in INBOX and in Trash, each of one
/// octet, and the ledger of its root. A failure may be due.
#[derive(Clone, Copy)]
pub struct Files {
    pub names: &'static [&'static str],
    pub trash: &'static [&'static str],
    pub ledger: Option<&'static [u8]>,
    pub fail: Option<KeepFail>,
}

pub const NO_FILES: Files = Files {
    names: &[],
    trash: &[],
    ledger: None,
    fail: None,
};

/// A ledger whose sum is wrong, and one whose last line has no end.
pub const OLD: Files = Files {
    names: &["1.mx,S=1000", "2.mx,S=400"],
    ledger: Some(b"1500S\n"),
    ..NO_FILES
};

pub const TORN: Files = Files {
    ledger: Some(b"10000000S,1000C\n1234 1\n-1234 -1"),
    ..NO_FILES
};

/// The store fails as the account is opened, or as a message is put.
pub const FAILS_LISTING: Files = Files {
    fail: Some(KeepFail {
        kind: KeepCall::List,
        nth: 1,
    }),
    ..NO_FILES
};

pub const FAILS_PUTTING: Files = Files {
    fail: Some(KeepFail {
        kind: KeepCall::Put,
        nth: 1,
    }),
    ..NO_FILES
};

/// A name that a delivery of this epoch could have, and a base that occurs twice.
pub const USED: Files = Files {
    names: &["1700000000.4.quotad,S=1"],
    ..NO_FILES
};

pub const DOUBLE: Files = Files {
    names: &["5.mx,S=1", "5.mx:2,S"],
    ..NO_FILES
};

/// One message of 1024 octets, and the same with one of one octet in Trash.
pub const ONE_KIB: Files = Files {
    names: &["1.mx,S=1024"],
    ..NO_FILES
};

pub const FULL_INBOX: Files = Files {
    names: &["8.mx,S=1024"],
    trash: &["7.mx,S=1"],
    ..NO_FILES
};
