//! What a program runs on a connection, or on standard input and output: a session of any front
//! over any desk of accounts.
#![tactic(auto)]

mod front;
mod session;

pub use front::Front;
pub use session::run_session;
