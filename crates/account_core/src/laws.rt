ghost use Rattle.account_core.specs.Generations.{EqualGenerationEqualUsage, GenerationIsCounted};
ghost use Rattle.account_core.specs.Forms.{RepliesHaveForm};
ghost use Rattle.account_core.specs.Logs.{LogsAreTheCallersOwn, LogsJoin};
ghost use Rattle.account_core.specs.Naming.{NamesStayApart};
ghost use Rattle.account_core.specs.Orderly.{AccountsStayOrderly};
ghost use Rattle.account_core.specs.Worked.{MessagesAreCounted, MovesAreAnswered, ScansAreAnswered};
ghost use Rattle.account_core.specs.WorkedLimits.{ChecksAreAnswered, DeliveriesAreAnswered, LimitsAreAnswered, RootsAreNamed};
ghost use Rattle.account_core.specs.WorkedTouching.{EntriesTouchSo};
ghost use Rattle.account_core.specs.WholeScans.{WholeScanIsUsage};
ghost use Rattle.account_core.specs.Legality.{MoveOverWhereNoFit, NoneBroken, NoneBrokenByMoves, OverWhereNoFit};

/// No accepted message breaks a limit, in any history.
pub fn no_accepted_message_breaks_a_limit()
    ensures { NoneBroken }
{}

/// The machine answers `Over` to a delivery to a mailbox that exists, or to a check, exactly if the
/// message does not fit.
pub fn over_exactly_where_a_message_does_not_fit()
    ensures { OverWhereNoFit }
{}

/// A moved message breaks no limit of a root that governs the target mailbox and not the source, in
/// any history.
pub fn no_moved_message_breaks_a_limit()
    ensures { NoneBrokenByMoves }
{}

/// The machine answers `Over` to a move exactly if the message does not fit, and nothing but a
/// limit keeps it from the target mailbox.
pub fn a_move_is_over_exactly_where_the_message_does_not_fit()
    ensures { MoveOverWhereNoFit }
{}

/// The generation that the machine answers with is the generation at the opening, plus the number
/// of deliveries, removals and moves between two mailboxes in the history.
pub fn the_generation_counts_the_changes()
    ensures { GenerationIsCounted }
{}

/// If a history has a prefix of the same generation, both leave the same messages but for their
/// flags, and the same usage of every root.
pub fn equal_generations_have_equal_usages()
    ensures { EqualGenerationEqualUsage }
{}

/// No two messages of a mailbox have the same base, in any history. This holds if no two had when
/// the account was opened, no message then had the base of a delivery yet to come, and the
/// deliveries at the opening and the entries are fewer than 2^64 together.
pub fn names_stay_apart()
    ensures { NamesStayApart }
{}

/// Suppose that an account is opened with at most 2^60 octets and 2^20 messages, no delivery or
/// change is counted yet, no two messages of a mailbox have the same base, and no message has the
/// base of a delivery. After n entries, fewer than 2^63, whose messages have at most 67108864
/// octets each, the account has at most 2^60 + 67108864 n octets, 2^20 + n messages, n deliveries
/// and n changes, and still no two messages of a mailbox have the same base.
pub fn accounts_stay_orderly()
    ensures { AccountsStayOrderly }
{}

/// The parts of the mailboxes that a root governs add up to its usage, in any history, if the
/// mailboxes are different and each message was in one of them when the account was opened.
pub fn whole_scans_are_usages()
    ensures { WholeScanIsUsage }
{}

/// Each reply of the machine is of a kind that its call may get, and the roots that the reply names
/// exist.
pub fn replies_have_their_form()
    ensures { RepliesHaveForm }
{}

/// Two logs of a caller, one after the other, are one log.
pub fn logs_join()
    ensures { LogsJoin }
{}

/// A caller's own entries, among those that it has seen, grow by the entries of its log, in their
/// order.
pub fn logs_are_the_callers_own()
    ensures { LogsAreTheCallersOwn }
{}

/// Worked accounts and the machine's replies: moves out of Trash, into it and within a mailbox;
/// messages that are moved, marked, removed and counted; scans that are begun, made in parts, and
/// installed or refused; deliveries and checks up to a limit and above it; the root and the
/// resource that a refusal names; and limits that are changed.
pub fn worked_accounts_are_answered_so()
    ensures moves { MovesAreAnswered }
    ensures counts { MessagesAreCounted }
    ensures scans { ScansAreAnswered }
    ensures deliveries { DeliveriesAreAnswered }
    ensures checks { ChecksAreAnswered }
    ensures roots { RootsAreNamed }
    ensures limits { LimitsAreAnswered }
{}

/// Worked entries and the quota objects that they touch (RFC 9425, section 4). A delivery, a
/// removal and a move touch the objects whose used number they change, and a change of limits
/// touches those whose limit it sets, changes or removes. A delivery to Trash, a mark, a question
/// and an entry with fault touch none. The version counts the entries that touched some object.
pub fn worked_entries_touch_objects_so()
    ensures { EntriesTouchSo }
{}
