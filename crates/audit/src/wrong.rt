// What an audit can find wrong.
use thiserror::Error;

#[derive(Clone, Copy, Debug, PartialEq, Eq, Error)]
pub(crate) enum Wrong {
    #[error("no such record was accepted")]
    NotAccepted,
    #[error("written a second time")]
    Twice,
    #[error("written too late")]
    Late,
    #[error("another reading")]
    Reading,
    #[error("ranges that do not cover it, or too many")]
    Ranges,
    #[error("a box number that cannot be")]
    Number,
    #[error("other ranges than the box had before")]
    Changed,
    #[error("too few owners behind the box")]
    Crowd,
    #[error("never written")]
    Missing,
    #[error("the stream counts otherwise")]
    Count,
}

// The first thing found wrong, with the position of the record.
#[derive(Clone, Copy, Debug, PartialEq, Eq, Error)]
#[error("position {position}: {wrong}")]
pub(crate) struct Breach {
    pub position: usize,
    pub wrong: Wrong,
}
