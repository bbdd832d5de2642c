//! Starts by their nodes. Assumes nothing.

use crate::start::Start;

/// The starts of some nodes of a tree, from the least node on. Of which file they are, and for which receivers they were read, no field keeps; so
/// contracts ask it, as `HasStarts`.
#[derive(Drop)]
pub struct Starts {
    pub(crate) height: u8,
    pub(crate) starts: Vec<Start>,
}
