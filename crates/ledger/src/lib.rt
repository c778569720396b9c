// What is kept of the boxes released so far.
#![tactic(auto)]

mod kept;
mod ledger;
mod losses;
mod mean;

pub use kept::KeptBox;
pub use ledger::Ledger;
pub use mean::Mean;

#[cfg(test)]
mod tests;
