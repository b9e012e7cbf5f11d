//! HTTP/1.1 (RFC 9112) for a server: requests taken from a feed, and the answers to them.
#![tactic(auto)]

mod fields;
mod laws;
mod reading;
mod refusal;
mod responses;
mod taking;

pub use fields::bearer_token;
pub use laws::{each_end_is_of_a_session, each_text_has_one_cut, heads_are_read_exactly};
pub use reading::{Head, MAX_BODY, MAX_HEAD, MAX_LINES, read_head};
pub use refusal::Refusal;
pub use responses::{Reply, push_problem, push_response, refusal_reply};
pub use taking::{after_answer, take_request};

#[cfg(test)]
mod tests;
