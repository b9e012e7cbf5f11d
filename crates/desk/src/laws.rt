//! What holds of the logs of every desk. These functions do nothing: each is a law, and its
//! contract says it.
ghost use Rattle.desk.specs.Logs.{CallsAreLogs, FullHistoriesStay, LogsJoin, LogsWithoutFailureAreReplied, PartsAreOwnEntries};

/// What a desk was asked by one call is a log. It has the call with its answer, unless memory ran
/// out.
pub fn calls_are_logs()
    ensures { CallsAreLogs }
{}

/// A log and the log of the calls after it make one log.
pub fn logs_join()
    ensures { LogsJoin }
{}

/// The entries of a log's calls on an account are what was added to the desk's own entries of it,
/// in the same order.
pub fn parts_are_own_entries()
    ensures { PartsAreOwnEntries }
{}

/// A history that a call found full stays full: no later call of the log has an entry in it.
pub fn full_histories_stay()
    ensures { FullHistoriesStay }
{}

/// If no entry that the desk has seen by the end has fault, and no history is full then, each call
/// of a log got the account machine's own reply.
pub fn logs_without_failure_are_replied()
    ensures { LogsWithoutFailureAreReplied }
{}
