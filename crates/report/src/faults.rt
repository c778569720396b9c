// Why a report line is turned away.
ghost use Rattle.std.specs.Prelude.{◌≡◌};
ghost use Rattle.report.specs.Faults.{line_diagnostic};
ghost use Rattle.report.specs.declared.faults.LineFault.TheVariants.{Text};

use rfc4180::{Diagnostic, Layer, Location, TextFault};
use thiserror::Error;

// A line is no text of fields, has another number of fields than it should, or has a field that is no number of its
// kind.
#[derive(Clone, Copy, Debug, PartialEq, Eq, Error)]
pub enum LineFault {
    #[error(transparent)]
    Text(TextFault),
    #[error("another number of fields than a report line has")]
    FieldCount(Location),
    #[error("a field that is not the number that belongs there, or out of its range")]
    FieldKind(Location),
}

impl LineFault {
    pub fn diagnostic(&self) -> Diagnostic
        ensures { result ≡ line_diagnostic self.now }
    {
        match *self {
            LineFault::Text(fault) => fault.diagnostic(),
            LineFault::FieldCount(at) => Diagnostic {
                number: 12,
                layer: Layer::Line,
                at,
            },
            LineFault::FieldKind(at) => Diagnostic {
                number: 13,
                layer: Layer::Line,
                at,
            },
        }
    }
}

// By hand, since `?` is to tell its callers which fault this makes.
impl From<TextFault> for LineFault {
    ghost from_gives = { λ e r. r ≡ Text e };

    fn from(fault: TextFault) -> LineFault {
        LineFault::Text(fault)
    }
}
