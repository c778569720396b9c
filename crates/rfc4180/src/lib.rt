// Text after RFC 4180, read a line at a time without copying a byte of it.
#![tactic(auto)]

mod faults;
mod fields;
mod lines;

pub use faults::{Diagnostic, Layer, Location, TextFault};
pub use fields::Field;
pub use lines::{Line, next_line, read_line};
