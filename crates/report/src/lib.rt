// Report lines: owner, the values of the attributes, reading.
#![tactic(auto)]

mod columns;
mod faults;
mod numbers;
mod reader;
mod texts;

pub use columns::Report;
pub use domain::{Width, WidthFault};
pub use faults::LineFault;
pub use reader::Reader;
pub use texts::read_all;
