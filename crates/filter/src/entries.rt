// What became of a line, in words.
ghost use Rattle.std.specs.Prelude.{Some};
ghost use Rattle.filter.specs.Entries.{entry_text};

use report::{LineFault, Report};
use rfc4180::{Diagnostic, Location};
use std::fmt;

// The line of print for one report line.
#[derive(Clone, Copy)]
pub struct Entry {
    pub outcome: Result<Report, LineFault>,
}

impl fmt::Display for Entry {
    ghost output = { λ e. Some (entry_text e.outcome) };

    fn fmt<W: fmt::Write>(&self, f: &mut fmt::Formatter<W>) -> fmt::Result {
        match self.outcome {
            Ok(report) => {
                let Report {
                    line,
                    owner,
                    values: [width, model, ..],
                    reading,
                    ..
                } = report;
                write!(
                    f,
                    "line {line}: owner {owner}, width {width}, model {model}, reading {reading}"
                )
            }
            Err(fault) => {
                let Diagnostic { number, layer, at } = fault.diagnostic();
                let Location { line, column, byte } = at;
                write!(
                    f,
                    "line {line}: turned away, {number} ({layer}) at column {column}, byte {byte}"
                )
            }
        }
    }
}
