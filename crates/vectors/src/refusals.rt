// Runs that are refused.
use crate::files::{ANN, DOUBLE, FAILS_LISTING, Files, NO_FILES, USED};

/// The arguments, the accounts file, the files of `ann`, the line that is written, and the status.
pub type Refusal = (
    &'static [&'static str],
    &'static str,
    Files,
    &'static [u8],
    u8,
);

/// Runs that are refused before a session begins: the arguments, the accounts file, the files of
/// `ann`, the line that is written, and the status. The earlier cause is told: the file, then the
/// name, then the files of the account.
pub static REFUSALS: [Refusal; 17] = [
    (&["imap"], "[", NO_FILES, b"accounts: not TOML\n", 2),
    (&["imap"], "", NO_FILES, b"accounts: missing account\n", 2),
    (
        &["imap", "ann"],
        "[[account]]\nname = \"ann\"\npassword = \"pw\"\n[[account.root]]\n",
        DOUBLE,
        b"accounts: missing token\n",
        2,
    ),
    (
        &["imap", "bob"],
        "imap = 0\n",
        NO_FILES,
        b"accounts: bad imap\n",
        2,
    ),
    (
        &["imap"],
        "[[account]]\nname = \"ann\"\npassword = \"pw\"\ntoken = \"t\"\n[[account.root]]\nstorage = 0\n",
        NO_FILES,
        b"accounts: bad storage\n",
        2,
    ),
    (
        &["imap"],
        "[[account]]\nname = \"ann\"\npassword = \"pw\"\ntoken = \"t\"\n[[account.root]]\n[[account]]\nname = \"ann\"\npassword = \"pw\"\ntoken = \"u\"\n[[account.root]]\n",
        NO_FILES,
        b"accounts: double ann\n",
        2,
    ),
    (
        &["imap"],
        "[[account]]\nname = \"ann\"\npassword = \"pw\"\ntoken = \"t\"\n[[account.root]]\n[[account.root]]\nname = \"a\"\nprefix = \"a\"\n[[account.root]]\nname = \"b\"\nprefix = \"b\"\n[[account.root]]\nname = \"c\"\nprefix = \"c\"\n[[account.root]]\nname = \"d\"\nprefix = \"d\"\n",
        NO_FILES,
        b"accounts: too many root\n",
        2,
    ),
    (&["imap", "bob"], ANN, NO_FILES, b"no account bob\n", 8),
    (&["imap", "Ann"], ANN, DOUBLE, b"no account Ann\n", 8),
    (&["imap", ""], ANN, NO_FILES, b"no account \n", 8),
    (
        &["imap", "ann"],
        ANN,
        USED,
        b"epoch used 1700000000.4.quotad\n",
        12,
    ),
    (&["imap"], ANN, DOUBLE, b"double name 5.mx\n", 13),
    (&["imap"], ANN, FAILS_LISTING, b"store unavailable\n", 7),
    // An account that the stores do not have.
    (
        &["imap"],
        "[[account]]\nname = \"bob\"\npassword = \"pw\"\ntoken = \"t\"\n[[account.root]]\n",
        NO_FILES,
        b"store unavailable\n",
        7,
    ),
    // The account `ann` is opened before the other is refused, and closed again.
    (
        &["imap", "ann"],
        "[[account]]\nname = \"ann\"\npassword = \"pw\"\ntoken = \"t\"\n[[account.root]]\n[[account]]\nname = \"bob\"\npassword = \"pw\"\ntoken = \"u\"\n[[account.root]]\n",
        NO_FILES,
        b"store unavailable\n",
        7,
    ),
    // The same of the policy socket.
    (
        &["policy"],
        ANN,
        USED,
        b"epoch used 1700000000.4.quotad\n",
        12,
    ),
    (&["policy"], "[", NO_FILES, b"accounts: not TOML\n", 2),
];
