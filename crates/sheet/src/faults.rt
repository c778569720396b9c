// Why a sheet, a header or a row is turned away.
ghost use Rattle.std.specs.Prelude.{◌≡◌};
ghost use Rattle.sheet.specs.declared.faults.HeaderFault.TheVariants.{Text};
ghost use Rattle.sheet.specs.Refusals.{begin_number, header_number, row_number};

use rfc4180::TextFault;
use thiserror::Error;

// A sheet is 1 to 6 attributes wide.
#[derive(Clone, Copy, Debug, PartialEq, Eq, Error)]
pub enum BeginFault {
    #[error("a sheet has one to six attributes")]
    Width,
}

impl BeginFault {
    pub fn number(self) -> u32
        ensures { result ≡ begin_number self }
    {
        match self {
            BeginFault::Width => 1,
        }
    }
}

// The header's text is faulty, its line has another number of fields than wanted, or the area has no room for it.
#[derive(Clone, Copy, Debug, PartialEq, Eq, Error)]
pub enum HeaderFault {
    #[error(transparent)]
    Text(TextFault),
    #[error("the header has {found} fields and not {wanted}")]
    Fields { found: usize, wanted: usize },
    #[error("the header takes {needed} bytes, and there is less room")]
    AreaTooShort { needed: usize },
}

impl HeaderFault {
    pub fn number(self) -> u32
        ensures { result ≡ header_number self }
    {
        match self {
            HeaderFault::Text(fault) => fault.diagnostic().number,
            HeaderFault::Fields { .. } => 12,
            HeaderFault::AreaTooShort { .. } => 18,
        }
    }
}

// By hand, since a contract names the fault that `?` makes.
impl From<TextFault> for HeaderFault {
    ghost from_gives = { λ e r. r ≡ Text e };

    fn from(text: TextFault) -> HeaderFault {
        HeaderFault::Text(text)
    }
}

// The sheet has all the rows that it may have, or the area has no room for the row.
#[derive(Clone, Copy, Debug, PartialEq, Eq, Error)]
pub enum RowFault {
    #[error("the sheet has four thousand million rows, and takes no more")]
    Full,
    #[error("the row takes {needed} bytes, and there is less room")]
    AreaTooShort { needed: usize },
}

impl RowFault {
    pub fn number(self) -> u32
        ensures { result ≡ row_number self }
    {
        match self {
            RowFault::Full => 16,
            RowFault::AreaTooShort { .. } => 18,
        }
    }
}
