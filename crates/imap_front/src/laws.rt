ghost use Rattle.wire_io.specs.Protocol.{IsFilled};
ghost use Rattle.accounts_file.specs.Hosts.{Hosts};
ghost use Rattle.imap_front.specs.Imap.{imap, ImapCutsOneWay};
ghost use Rattle.imap_front.specs.Wording.{RequestsHaveTexts, CommandsEndTagged};

/// A law: each text can be continued to a whole request of IMAP, and can be cut into requests in
/// exactly one way.
pub fn each_text_has_one_cut()
    ensures filled { (hosts : Hosts) → IsFilled (imap hosts) }
    ensures one_cut { ImapCutsOneWay }
{}

/// A law: whatever the account answers to its calls, a session answers each request with a text. If
/// the request is a command, the last line of the text has the command's tag.
pub fn each_answer_has_a_text()
    ensures some { RequestsHaveTexts }
    ensures tagged { CommandsEndTagged }
{}
