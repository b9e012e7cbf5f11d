//! The quantities of a mail quota: storage units, limits, totals, names, flags and decimal numbers.
#![tactic(auto)]

mod bytes;
mod digits;
mod failed;
mod flags;
mod limits;
mod memory;
mod name;
mod resource;
mod totals;
mod units;

pub use bytes::is_printable;
pub use digits::{number_in, numeral_in};
pub use failed::Failed;
pub use flags::{Flags, is_flag_letter};
pub use limits::{LARGEST_LIMIT, LimitError, Limits, MAX_LIMIT, limit_of_count, limit_of_units};
pub use memory::NoMemory;
pub use name::{Name, NameError};
pub use resource::{Resource, resource_named};
pub use totals::{MAX_SUM, Totals, cut_sum};
pub use units::units_up;
