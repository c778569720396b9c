// A stream that is fed from report lines.
#![tactic(auto)]

mod faults;
mod feeding;

pub use faults::{FeedFault, FeedRefusal};
pub use feeding::{feed_next, feed_report};

#[cfg(test)]
mod tests;
