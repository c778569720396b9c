// What `castle` does with an input, on values.
#![tactic(auto)]

ghost use Rattle.std.specs.Prelude.{◌≡◌, length, is_ok, filter, MatchResult};
ghost use Rattle.filter.specs.Surveys.{Surveyed, Refused, refusal_number};
ghost use Rattle.filter.specs.declared.Refusal.TheVariants.{Memory};

use report::{LineFault, Report, Width, read_all};
use std::alloc::{AllocError, Global};
use thiserror::Error;

mod entries;

pub use entries::Entry;

// The longest input, in bytes.
pub const LIMIT: usize = 65_536;

// Why an input is not read at all.
#[derive(Clone, Copy, Debug, PartialEq, Eq, Error)]
pub enum Refusal {
    #[error("the input is longer than 65,536 bytes")]
    TooLong,
    #[error("there is not enough memory")]
    Memory,
}

impl Refusal {
    // The number of the refusal; want of memory has none.
    pub fn number(&self) -> Option<u32>
        ensures { result ≡ refusal_number self.now }
    {
        match self {
            Refusal::TooLong => Some(19),
            Refusal::Memory => None,
        }
    }
}

// By hand, since `?` is to tell its callers which refusal this makes.
impl From<AllocError> for Refusal {
    ghost from_gives = { λ _ r. r ≡ Memory };

    fn from(_e: AllocError) -> Refusal {
        Refusal::Memory
    }
}

// What became of each line of an input, and how many lines were taken.
#[derive(Drop)]
pub struct Findings {
    pub lines: Vec<Result<Report, LineFault>>,
    pub taken: usize,
}

fn count_taken(lines: &[Result<Report, LineFault>]) -> usize
    ensures { result ≡ length (filter is_ok lines.now) }
{
    lines.iter().filter(|line| line.is_ok()).count()
}

// Reads an input as report lines of two attributes, width and model.
pub fn survey(heap: Global, input: &[u8]) -> Result<Findings, Refusal>
    ensures { MatchResult result (λ s. Surveyed input.now s) (λ e. Refused input.now e) }
{
    if input.len() > LIMIT {
        return Err(Refusal::TooLong);
    }
    let Ok(width) = Width::new(2) else {
        unreachable()
    };
    let lines = read_all(heap, input, width)?;
    let taken = count_taken(&lines);
    Ok(Findings { lines, taken })
}
