//! The nodes of the tree. Assumes nothing.
ghost use Rattle.std.specs.Prelude.{◌≡◌, ◌^◌, ◌&&◌, if◌then◌else◌, Some, None, nat_lt};
ghost use Rattle.tree.specs.Nodes.{leaf};
ghost use Rattle.tree.specs.Receivers.{is_height};
ghost use Rattle.tree.specs.Ways.{sibling};

use crate::heights::Height;

/// The node of a receiver, if the tree has it.
pub fn leaf_of(height: u8, receiver: u32) -> Option<u32>
    ensures { result ≡ (if is_height height && nat_lt receiver (2 ^ height) then Some (leaf height receiver) else None) }
{
    Height::try_from(height).ok()?.leaf(receiver)
}

/// The other node below the same one.
pub fn sibling_of(node: u32) -> u32
    ensures { result ≡ sibling node }
{
    if node % 2 == 0 { node + 1 } else { node - 1 }
}
