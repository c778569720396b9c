// Why a call is turned away. Reasons are tried in the order of the variants.
ghost use Rattle.std.specs.Prelude.{◌≡◌, ◌==◌, codes, if◌then◌else◌};
ghost use Rattle.rules.specs.Refusals.{open_number, refusal_number, refusal_column};

use thiserror::Error;

// Why no stream is opened.
#[derive(Debug, Clone, Copy, PartialEq, Eq, Error)]
pub enum OpenRefusal {
    #[error("a stream takes records of one to six attributes")]
    Width,
    #[error("a setting is outside its limits")]
    Limits,
}

impl OpenRefusal {
    pub fn number(self) -> u32
        ensures { result ≡ open_number self }
    {
        match self {
            OpenRefusal::Width => 1,
            OpenRefusal::Limits => 2,
        }
    }
}

// Why a record is not taken, or a stream is not closed. `Unfit` has the column at fault, from 1.
#[derive(Debug, Clone, Copy, PartialEq, Eq, Error)]
pub enum Refusal {
    #[error("the stream is closed")]
    Closed,
    #[error("the stream has taken 4,000,000,000 records, and takes no more")]
    Full,
    #[error("the release list is too short for the lines that may be due")]
    ShortList,
    #[error("column {0}: {fault}", fault = fault_in(*.0))]
    Unfit(u32),
}

// What is wrong in that column: the first has the owner.
fn fault_in(column: u32) -> &'static str
    ensures { result.now ≡ (if column == 1 then codes "the owner is 0" else codes "the value is not one of the domain's") }
{
    if column == 1 {
        "the owner is 0"
    } else {
        "the value is not one of the domain's"
    }
}

impl Refusal {
    pub fn number(self) -> u32
        ensures { result ≡ refusal_number self }
    {
        match self {
            Refusal::Closed => 15,
            Refusal::Full => 16,
            Refusal::ShortList => 17,
            Refusal::Unfit(_) => 14,
        }
    }

    // 0 where no column is at fault: so it is told.
    pub fn column(self) -> u32
        ensures { result ≡ refusal_column self }
    {
        match self {
            Refusal::Unfit(column) => column,
            _ => 0,
        }
    }
}
