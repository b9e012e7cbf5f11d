ghost use Rattle.std.specs.Prelude.{◌≡◌, ◌≢◌, ◌⊎◌, ℕ, List, [], ◌++◌};
ghost use Rattle.wire_io.specs.Protocol.{Protocol, IsFilled, HasOneCut};
ghost use Rattle.wire_io.specs.Session.{Session, EndsOneWay, InputEnds, IsQuiet};
ghost use Rattle.wire_io.specs.Transcript.{Answers, IsAnswered, transcript};
ghost use Rattle.wire_io.specs.declared.ends.SessionEnd.{SessionEnd as End};

use crate::SessionEnd;

/// A protocol with `IsFilled` cuts each text into requests in exactly one way. In such a protocol
/// each text can be continued to a whole request, and the empty text is not one.
pub fn each_text_has_one_cut<State, Request, Call, Answer>()
    ghost p: { Protocol State Request Call Answer }
    ensures { IsFilled p → (state : State) (text : List ℕ) → HasOneCut p state text }
{}

/// In a protocol with `IsFilled`, if an input decides an end, a session over it has that end,
/// unless a read or a write fails or memory runs out.
pub fn an_input_decides_the_end<State, Request, Call, Answer>()
    ghost p: { Protocol State Request Call Answer }
    ensures { IsFilled p → (greeting : List ℕ) (start : State) (limit : ℕ)
        (input taken left : List ℕ) (log : List (Call × Answer)) (written : List ℕ)
        (end due : End) → input ≡ taken ++ left
        → Session p greeting start limit (left ≡ []) taken log written end
        → InputEnds p start limit input due → IsQuiet end
        → (end ≡ due) ⊎ (end ≡ SessionEnd.NoMemory) }
{}

/// In a protocol with `IsFilled`, each input decides an end, if what the session does after a
/// request never depends on the answers to the request's calls.
pub fn each_input_has_an_end<State, Request, Call, Answer>()
    ghost p: { Protocol State Request Call Answer }
    ensures { IsFilled p → EndsOneWay p → (start : State) (limit : ℕ) (input : List ℕ)
        → (due : End) × InputEnds p start limit input due }
{}

/// In a protocol with `IsFilled`, if a world that only these calls change answers each call, the
/// bytes of an input decide all that a session writes, how it ends and the world that it leaves,
/// unless a read or a write fails or memory runs out.
pub fn an_input_decides_the_session<State, Request, Call, Answer, World>()
    ghost p: { Protocol State Request Call Answer × Answers World Call Answer }
    ensures { IsFilled p.0 → (greeting : List ℕ) (start : State) (limit : ℕ)
        (input taken left : List ℕ) (log : List (Call × Answer)) (written : List ℕ)
        (end : End) (world last : World) → input ≡ taken ++ left
        → Session p.0 greeting start limit (left ≡ []) taken log written end
        → IsAnswered p.1 world log last → IsQuiet end → end ≢ SessionEnd.NoMemory
        → (written ≡ greeting ++ (transcript p.0 p.1 limit start world input).text)
        × (end ≡ (transcript p.0 p.1 limit start world input).end)
        × (last ≡ (transcript p.0 p.1 limit start world input).world) }
{}
