/// What a session speaks, and who is logged in at its start.
#[derive(Clone, Copy, Debug, PartialEq, Eq)]
pub enum Front {
    /// IMAP, with nobody logged in.
    Imap,
    /// IMAP, with the owner of the account of this number logged in.
    ImapAs(u32),
    /// The policy protocol of Postfix (SMTPD_POLICY_README), with requests of this project's own.
    Policy,
}
