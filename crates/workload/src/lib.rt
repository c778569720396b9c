// Records that are drawn alike on every machine, the domains that they belong to, and a checksum of the lines that go out.
#![tactic(auto)]

mod checksum;
mod domains;
mod source;

pub use checksum::Checksum;
pub use domains::{Six, Two, six, two};
pub use source::{Source, Workload};
