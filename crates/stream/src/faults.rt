// Why no stream was opened.
ghost use Rattle.std.specs.Prelude.{◌≡◌};
ghost use Rattle.stream.specs.declared.faults.OpenFault.TheVariants.{Refused, Memory};

use rules::OpenRefusal;
use std::alloc::AllocError;
use thiserror::Error;

// The domain or the settings were refused, or memory was wanting.
#[derive(Debug, Clone, Copy, PartialEq, Eq, Error)]
pub enum OpenFault {
    #[error(transparent)]
    Refused(OpenRefusal),
    #[error("there is no memory for the stream")]
    Memory,
}

// By hand, since contracts name the fault that `?` makes.
impl From<OpenRefusal> for OpenFault {
    ghost from_gives = { λ e r. r ≡ Refused e };

    fn from(refusal: OpenRefusal) -> OpenFault {
        OpenFault::Refused(refusal)
    }
}

impl From<AllocError> for OpenFault {
    ghost from_gives = { λ _ r. r ≡ Memory };

    fn from(_error: AllocError) -> OpenFault {
        OpenFault::Memory
    }
}
