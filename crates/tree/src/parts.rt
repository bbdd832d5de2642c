//! Parts: sets of receivers that one key serves. Assumes nothing.
use std::fmt;

/// The receivers at or below node `first` and not at or below node `second`; (0, 0) is all receivers.
#[derive(Clone, Copy, Debug, PartialEq, Eq)]
pub struct Part {
    pub first: u32,
    pub second: u32,
}

impl Part {
    /// The part of all receivers.
    pub const ALL: Part = Part {
        first: 0,
        second: 0,
    };
}

/// The part as `(first, second)`.
impl fmt::Display for Part {
    fn fmt<W: fmt::Write>(&self, f: &mut fmt::Formatter<W>) -> fmt::Result {
        let Part { first, second } = *self;
        write!(f, "({first}, {second})")
    }
}
