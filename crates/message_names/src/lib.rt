//! The file names of messages, read and written: `base,S=size:2,flags`.
//!
//! A name states the message's size in octets and its flags, so that neither has to be looked up in
//! the file (Maildir++).
#![tactic(auto)]

mod cuts;
mod laws;
mod parts;
mod sizes;
mod writing;

pub use laws::{one_size, renamed_reads_back, written_reads_back};
pub use parts::{NameParts, base_of, parse_name};
pub use sizes::size_of;
pub use writing::{NameFault, print_name, with_flags};
