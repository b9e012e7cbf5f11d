//! What holds of accounts that one owner asks. These functions do nothing: each is a law, and its
//! contract says it.
ghost use Rattle.plain_desk.specs.Continuing.{NoneDueNoFailures, NoneDueNoFault};

/// If no failure of its keeper was due when an account was opened, no entry of its history has
/// fault, whatever its owner has asked since.
pub fn no_failure_due_no_fault()
    ensures { NoneDueNoFault }
{}

/// If no failure of any keeper was due, no account has a failure after the owner's calls, as long
/// as its journal lasts.
pub fn no_failures_due_no_failures()
    ensures { NoneDueNoFailures }
{}
