//! The command lines of IMAP (RFC 9051, section 9, and RFC 9208): readers of their parts, and of a
//! whole command.
#![tactic(auto)]

mod append;
mod astring;
mod command;
mod faults;
mod laws;
mod limits;
mod literal;
mod number;
mod parts;
mod print;
mod progress;
mod readers;
mod status;
mod word;

pub use astring::Astring;
pub use command::{Command, CommandFault, read_command};
pub use faults::tag_in;
pub use laws::{
    a_printed_name_reads_back, a_reading_is_the_grammar, a_syntax_error_has_its_place,
    each_text_goes_on_to_a_request, each_text_is_one_command,
};
pub use limits::{AskedLimit, AskedLimits};
pub use print::push_astring;
pub use progress::{MAX_MESSAGE, MAX_TEXT, Progress, read_progress};
pub use status::{StatusItem, StatusItems};
