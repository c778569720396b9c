// The choices of the rules among the open clusters, read from their table.
#![tactic(auto)]

mod arrival;
mod joining;
mod losses;
mod rows;

pub use arrival::taker;
pub use joining::easiest;
pub use losses::loss_with;
pub use pool::find;
pub use rows::larger;

#[cfg(test)]
mod tests;
