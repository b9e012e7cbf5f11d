//! The ledger of a quota root: the text of the file `maildirsize`, read and written.
//!
//! A ledger is a definition line and any number of sum lines, each ended by a line feed
//! (Maildir++).
#![tactic(auto)]

mod definition;
mod laws;
mod ledger_text;
mod prefixes;
mod printing;
mod sum_line;
mod text;

pub use definition::definition_of;
pub use laws::{one_reading, written_reads_back};
pub use ledger_text::{LedgerFault, LedgerText, read_ledger};
pub use printing::{print_definition, print_folded, print_line};
pub use text::Text;
