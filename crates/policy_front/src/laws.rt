ghost use Rattle.wire_io.specs.Protocol.{IsFilled};
ghost use Rattle.wire_io.specs.Session.{EndsOneWay};
ghost use Rattle.accounts_file.specs.Hosts.{Hosts};
ghost use Rattle.policy_front.specs.Policy.{policy, PolicyCutsOneWay};
ghost use Rattle.policy_front.specs.Wording.{RequestsHaveActions};

/// A law: each text can be continued to a whole request, and can be cut into requests in exactly
/// one way.
pub fn each_text_has_one_cut()
    ensures filled { (hosts : Hosts) → IsFilled (policy hosts) }
    ensures one_cut { PolicyCutsOneWay }
{}

/// A law: whatever the account answers to its calls, a session answers each request with
/// `action=` and words on one line, and an empty line. What the session does then never depends on
/// the account's answers.
pub fn each_answer_is_an_action()
    ensures action { RequestsHaveActions }
    ensures one_way { (hosts : Hosts) → EndsOneWay (policy hosts) }
{}
