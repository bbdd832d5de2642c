//! What is wrong with a file of starts, by its first two bytes and its length. Assumes nothing.
ghost use Rattle.std.specs.Prelude.{◌≡◌, ℕ, List};
ghost use Rattle.fault.specs.Lowest.{lowest};
ghost use Rattle.starts.specs.Format.{starts_size, starts_faults};
ghost use Rattle.starts.specs.Window.{counted, window};

use crate::filling::start_at;
use fault::Fault;
use tree::heights::Height;
use wire::head::{Kind, read_height};

/// How many bytes a file of starts has, for a tree of this height.
fn size_of_starts(height: Height) -> usize
    ensures { result ≡ starts_size height.levels }
{
    start_at(2 * height.receivers())
}

/// The lowest fault of a file of `size` bytes that begins with these.
pub fn fault_in_file(head: &[u8; 2], size: usize) -> Option<Fault>
    ensures { (s : List ℕ) → head.now ≡ window 0 2 s → size ≡ counted s → result ≡ lowest (starts_faults s) }
{
    if size < 2 {
        return Some(Fault::Malformed);
    }
    match read_height(Kind::Starts, head) {
        Ok(height) => Fault::Malformed.when(size != size_of_starts(height)),
        Err(fault) => Some(fault),
    }
}
