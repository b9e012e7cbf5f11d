ghost use Rattle.owner_sessions.specs.Laws.{InputsDecideSessions};

/// A law: if the owner of some accounts alone asks them and their keepers do not fail, the bytes of
/// an input decide all that a session writes, how it ends and the owner's shares after it, unless a
/// read or a write fails or memory runs out.
pub fn inputs_decide_sessions()
    ensures { InputsDecideSessions }
{}
