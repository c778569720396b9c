// The stream: records are fed in, and go out in boxes behind which a crowd stands, or are suppressed.
#![tactic(auto)]

mod checks;
mod dues;
mod faults;
mod lines;
mod releases;
mod replays;
mod stream;

pub use faults::OpenFault;
pub use replays::{Call, Replay, replay_calls};
pub use stream::Stream;
