// Why a line, or its record, is turned away.
ghost use Rattle.std.specs.Prelude.{◌≡◌};
ghost use Rattle.intake.specs.Faults.{of_no_line, feed_diagnostic};
ghost use Rattle.intake.specs.declared.faults.FeedFault.TheVariants.{Line, Feed};

use report::LineFault;
use rfc4180::{Diagnostic, Layer, Location};
use rules::Refusal;
use thiserror::Error;

// A refusal of feeding, and the line that the record came from: its number and its first byte. Both are 0 where it came
// from no line: so it is told.
#[derive(Clone, Copy, Debug, PartialEq, Eq, Error)]
#[error("{refusal}")]
pub struct FeedRefusal {
    pub refusal: Refusal,
    pub line: usize,
    pub byte: usize,
}

// The line is turned away by its reader, or its record by the stream.
#[derive(Clone, Copy, Debug, PartialEq, Eq, Error)]
pub enum FeedFault {
    #[error(transparent)]
    Line(LineFault),
    #[error(transparent)]
    Feed(FeedRefusal),
}

impl FeedFault {
    pub fn diagnostic(&self) -> Diagnostic
        ensures { result ≡ feed_diagnostic self.now }
    {
        match *self {
            FeedFault::Line(fault) => fault.diagnostic(),
            FeedFault::Feed(
                FeedRefusal {
                    refusal,
                    line,
                    byte,
                },
            ) => Diagnostic {
                number: refusal.number(),
                layer: Layer::Feed,
                at: Location {
                    line,
                    column: refusal.column() as usize,
                    byte,
                },
            },
        }
    }
}

// By hand, since contracts name the fault that `?` makes.
impl From<LineFault> for FeedFault {
    ghost from_gives = { λ e r. r ≡ Line e };

    fn from(line: LineFault) -> FeedFault {
        FeedFault::Line(line)
    }
}

impl From<FeedRefusal> for FeedFault {
    ghost from_gives = { λ e r. r ≡ Feed e };

    fn from(feed: FeedRefusal) -> FeedFault {
        FeedFault::Feed(feed)
    }
}

// A record that comes from no line.
impl From<Refusal> for FeedFault {
    ghost from_gives = { λ e r. r ≡ Feed (of_no_line e) };

    fn from(refusal: Refusal) -> FeedFault {
        FeedFault::Feed(FeedRefusal {
            refusal,
            line: 0,
            byte: 0,
        })
    }
}
