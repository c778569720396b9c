// Where and why a text is turned away.
ghost use Rattle.std.specs.Prelude.{◌≡◌, ◌+◌, ◌^◌, ◌<◌, Some};
ghost use Rattle.rfc4180.specs.Faults.{text_diagnostic, faulty_field, layer_name};

use std::fmt;
use thiserror::Error;

// A place in a text: lines and columns count from 1, bytes from 0.
#[derive(Clone, Copy, Debug, PartialEq, Eq)]
pub struct Location {
    pub line: usize,
    pub column: usize,
    pub byte: usize,
}

impl Location {
    // The place `bytes` further on in the same field. What it requires is no invariant, since only the text bounds a place.
    pub(crate) fn forward(self, bytes: usize) -> Location
        requires { self.byte + bytes < 2 ^ 64 }
        ensures { result ≡ record { line = self.line; column = self.column; byte = self.byte + bytes } }
    {
        Location {
            byte: self.byte + bytes,
            ..self
        }
    }

    // The next column, behind the comma at the byte `end`.
    pub(crate) fn behind_comma(self, end: usize) -> Location
        requires { (self.column + 1 < 2 ^ 64) × (end + 1 < 2 ^ 64) }
        ensures { result ≡ record { line = self.line; column = self.column + 1; byte = end + 1 } }
    {
        Location {
            column: self.column + 1,
            byte: end + 1,
            ..self
        }
    }
}

// The layer that turned a line away: its text, its fields, or the stream that it was fed to.
#[derive(Clone, Copy, Debug, PartialEq, Eq)]
pub enum Layer {
    Text,
    Line,
    Feed,
}

impl fmt::Display for Layer {
    ghost output = { λ l. Some (layer_name l) };

    fn fmt<W: fmt::Write>(&self, f: &mut fmt::Formatter<W>) -> fmt::Result {
        match self {
            Layer::Text => write!(f, "text"),
            Layer::Line => write!(f, "line"),
            Layer::Feed => write!(f, "feed"),
        }
    }
}

// What every fault tells, whichever layer it comes from.
#[derive(Clone, Copy, Debug, PartialEq, Eq)]
pub struct Diagnostic {
    pub number: u32,
    pub layer: Layer,
    pub at: Location,
}

// Each fault has the place of the offending byte, and the first byte of the field that it spoils:
// the next line is looked for from there on.
#[derive(Clone, Copy, Debug, PartialEq, Eq, Error)]
pub enum TextFault {
    #[error("a character that may not stand there")]
    NotAllowed { at: Location, field: usize },
    #[error("a quotation mark is never closed")]
    Unclosed { at: Location, field: usize },
}

impl TextFault {
    pub fn diagnostic(&self) -> Diagnostic
        ensures { result ≡ text_diagnostic self.now }
    {
        let (number, at) = match *self {
            TextFault::NotAllowed { at, .. } => (9, at),
            TextFault::Unclosed { at, .. } => (11, at),
        };
        Diagnostic {
            number,
            layer: Layer::Text,
            at,
        }
    }

    pub fn field(&self) -> usize
        ensures { result ≡ faulty_field self.now }
    {
        match *self {
            TextFault::NotAllowed { field, .. } => field,
            TextFault::Unclosed { field, .. } => field,
        }
    }
}
