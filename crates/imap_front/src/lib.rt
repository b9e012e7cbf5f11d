//! Sessions of IMAP (RFC 9051 and RFC 9208) over any desk of accounts.
#![tactic(auto)]

mod answers;
mod asked;
mod laws;
mod owner;
mod quota_lines;
mod request;
mod response;
mod session;
mod status_lines;
mod texts;

pub use laws::{each_answer_has_a_text, each_text_has_one_cut};
pub use session::run_imap;
