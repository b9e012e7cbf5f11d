//! What is read from an account's files when the account is opened: the limits of its quota roots,
//! and anything that prevents opening it.
#![tactic(auto)]

mod admit;
mod bases;
mod error;
mod findings;
mod limits;

pub use admit::admit_files;
pub use error::OpenError;
