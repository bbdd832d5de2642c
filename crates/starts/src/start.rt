//! The start of a node, as far as it was read. Assumes nothing.

/// A node and its start, with zeros for bytes that were not read.
#[derive(Clone, Copy)]
pub struct Start {
    pub(crate) node: u32,
    pub(crate) bytes: [u8; 32],
}
