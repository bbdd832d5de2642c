//! A file of starts as far as it was read. Assumes nothing.
ghost use Rattle.std.specs.Prelude.{◌≤◌, vec_len};

use crate::start::Start;
use fault::Fault;

/// What has been read: of the first `at` bytes, the head and the starts that are kept. The first `done` of them are complete.
#[derive(Drop)]
pub struct StartsReader {
    pub(crate) height: u8,
    pub(crate) starts: Vec<Start>,
    pub(crate) head: [u8; 2],
    pub(crate) at: usize,
    pub(crate) done: usize,
    /// The lowest fault of the receivers for whom it is read; if there is one, no starts are kept.
    pub(crate) asked: Option<Fault>,
    ghost within: { done ≤ vec_len starts },
}
