//! The words of the command line of `quotactl`, read by `clap`.
#![tactic(auto)]

mod commands;
mod form;

pub use form::{Form, form_of};

#[cfg(test)]
mod tests;
