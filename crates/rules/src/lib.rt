// The rules of the release filter: the types that they speak of, and the theorems that stand on contracts here.
#![tactic(auto)]

ghost use Rattle.rules.specs.Around.{BoxesStand};
ghost use Rattle.rules.specs.Examples.{Examples};
ghost use Rattle.rules.specs.Facts.{FactsStand};
ghost use Rattle.rules.specs.Laws.{Choices};
ghost use Rattle.rules.specs.Promise.{PromiseStands};
ghost use Rattle.rules.specs.Reasons.{ReasonsStand};
ghost use Rattle.rules.specs.Runs.{Determined};

use release::Record;

mod refusals;

pub use refusals::{OpenRefusal, Refusal};

// An accepted record; positions count from 1.
#[derive(Debug, Clone, Copy, PartialEq, Eq)]
pub struct Entry {
    pub position: u32,
    pub fed: Record,
}

// A record in an open cluster; the label is the position of the record that opened the cluster.
#[derive(Debug, Clone, Copy, PartialEq, Eq)]
pub struct Held {
    pub entry: Entry,
    pub label: u32,
}

// Every run keeps the promise.
pub fn promise_stands()
    ensures { PromiseStands }
{}

// Every run keeps to its bounds, orders and counts.
pub fn facts_stand()
    ensures { FactsStand }
{}

// The opening and the calls' arguments determine a run, its answers and its turns.
pub fn runs_determined()
    ensures { Determined }
{}

// A call is refused for a reason, the first that holds, and only so.
pub fn reasons_stand()
    ensures { ReasonsStand }
{}

// What is chosen from lists is what its name says.
pub fn choices_stand()
    ensures { Choices }
{}

// The box of records is the least around them.
pub fn boxes_stand()
    ensures { BoxesStand }
{}

// Worked examples of the definitions, jointly.
pub fn examples_stand()
    ensures { Examples }
{}
