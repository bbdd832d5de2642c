//! The first two bytes of a file of starts. Assumes nothing.
ghost use Rattle.std.specs.Prelude.{◌≡◌, slice_index};
ghost use Rattle.fault.specs.Lowest.{judged};
ghost use Rattle.wire.specs.Head.{head_faults};

use fault::Fault;
use wire::head::Kind;

/// The height of the tree, by the first two bytes of a file of starts.
pub fn read_height(front: &[u8]) -> Result<u8, Fault>
    ensures { result ≡ judged (head_faults 4 front.now) (slice_index front.now 1) }
{
    Ok(wire::head::read_height(Kind::Starts, front)?.levels)
}
