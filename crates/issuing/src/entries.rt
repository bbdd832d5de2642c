//! The labels under one node, worked out on the way from it down to a receiver and written with their places. Assumes nothing.
ghost use Rattle.std.specs.Prelude.{◌≡◌, ℕ, ◌*◌, ◌/◌, ◌^◌, ◌≤◌, length};
ghost use Rattle.tree.specs.Nodes.{max_height};
ghost use Rattle.tree.specs.Ways.{sibling, hanging};
ghost use Rattle.secrecy.specs.Terms.{Start, side};
ghost use Rattle.secrecy.specs.Worlds.{bytes};
ghost use Rattle.keys.specs.Drawn.{Draws, world};
ghost use Rattle.keys.specs.Promise.{WorksOut};
ghost use Rattle.issuing.specs.Issued.{Wrote};

use keys::Key;
use keys::cipher::Cipher;
use keys::labels::sides;
use tree::nodes::sibling_of;
use tree::parts::Part;
use wire::labels::{ENTRY, entry_bytes};

/// From the label of the node above, those of a node and of its sibling.
fn fork<C: Cipher>(cipher: &mut C, above: Key, node: u32) -> (Key, Key)
    ensures own { WorksOut C.Cipher.gives (side node) above result.0 }
    ensures beside { WorksOut C.Cipher.gives (side (sibling node)) above result.1 }
{
    let (left, right) = sides(cipher, above);
    if node % 2 == 0 {
        (left, right)
    } else {
        (right, left)
    }
}

/// Writes the labels under node `first`, `steps` above a leaf, of all that hangs off the way from it down to the leaf. They stand in the order from
/// the leaf upwards, so they are written from the last on.
pub fn write_under<C: Cipher>(cipher: &mut C, start: Key, leaf: u32, steps: u8, out: &mut [u8])
    requires { (steps ≤ max_height) × ((2 ^ steps ≤ leaf) × (40 * steps ≤ length out.old)) }
    ensures { (d : Draws) (g h : ℕ) → steps ≤ h → start ≡ bytes (world C.Cipher.gives d) (Start g (leaf / 2 ^ steps)) → Wrote (world C.Cipher.gives d) g h (hanging steps (leaf / 2 ^ steps) leaf) out.old out.new }
{
    let first = leaf >> steps;
    let mut here = start;
    for left in (0..steps).rev() {
        let node = leaf >> left;
        let (own, beside) = fork(cipher, here, node);
        let place = Part {
            first,
            second: sibling_of(node),
        };
        let at = ENTRY * left as usize;
        out[at..at + ENTRY].copy_from_slice(&entry_bytes(place, beside));
        here = own;
    }
}
