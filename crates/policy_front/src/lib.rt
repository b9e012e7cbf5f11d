//! Sessions of a policy server (Postfix, SMTPD_POLICY_README) over any desk of accounts.
#![tactic(auto)]

mod answers;
mod asking;
mod attributes;
mod kind;
mod laws;
mod reading;
mod session;
mod taking;
mod target;

pub use laws::{each_answer_is_an_action, each_text_has_one_cut};
pub use reading::{MAX_MESSAGE, MAX_TEXT, PolicyFault, PolicyRequest, read_request};
pub use session::run_policy;
