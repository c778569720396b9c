// Sheets of a release, written as text after RFC 4180.
#![tactic(auto)]

mod digits;
mod faults;
mod fields;
mod headers;
mod rows;
mod sheets;

pub use faults::{BeginFault, HeaderFault, RowFault};
pub use rows::{MAX_ROW, MAX_ROWS};
pub use sheets::{BareSheet, EndedSheet, HeadedSheet, HeaderRefused};

#[cfg(test)]
mod tests;
