//! A receiver's label file, from the starts of the nodes above it. Assumes nothing.
ghost use Rattle.std.specs.Prelude.{◌≡◌, ℕ, ◌+◌, ◌*◌, ◌/◌, ◌≤◌, length};
ghost use Rattle.tree.specs.Nodes.{leaf};
ghost use Rattle.tree.specs.Ways.{above};
ghost use Rattle.keys.specs.Drawn.{Draws, world};
ghost use Rattle.wire.specs.Labels.{labels_size};
ghost use Rattle.issuing.specs.Issued.{StartOfAll, StartsAbove, Wrote, WroteFile};

use crate::entries::write_under;
use keys::Key;
use keys::cipher::Cipher;
use tree::heights::Height;
use wire::labels::{ENTRY, HEAD, head_bytes};

/// The most nodes above a receiver's own.
pub const LEVELS: usize = 16;

/// What a receiver's labels come from: the start of 0, and those of the nodes above its own node, from below upwards.
#[derive(Clone, Copy)]
pub struct Sources {
    pub height: Height,
    pub receiver: u32,
    pub own: u32,
    pub all: Key,
    // As many of these are used as the tree has levels; in a list with a length of its own, that would stand twice.
    pub above: [Key; LEVELS],
    ghost stands: { own ≡ leaf height.levels receiver },
}

/// Writes the labels under each of the nodes above a receiver's own, from below upwards, to the front of lent memory.
fn write_levels<C: Cipher>(cipher: &mut C, sources: &Sources, out: &mut [u8])
    requires { 40 * (sources.now.height.levels * (sources.now.height.levels + 1) / 2) ≤ length out.old }
    ensures { (d : Draws) (g : ℕ) → StartsAbove (world C.Cipher.gives d) g sources.now.height.levels sources.now.own sources.now.above → Wrote (world C.Cipher.gives d) g sources.now.height.levels (above sources.now.height.levels 1 (sources.now.own / 2) sources.now.own) out.old out.new }
{
    // Levels are of different lengths, so the place in the file is counted along.
    let mut at = 0;
    for level in 0..sources.height.levels {
        let steps = level + 1;
        let start = sources.above[level as usize];
        write_under(cipher, start, sources.own, steps, &mut out[at..]);
        at += ENTRY * steps as usize;
    }
}

/// Writes a receiver's label file to the front of lent memory.
pub fn write_file<C: Cipher>(cipher: &mut C, sources: &Sources, out: &mut [u8])
    requires { labels_size sources.now.height.levels ≤ length out.old }
    ensures { (d : Draws) (g : ℕ) → StartOfAll (world C.Cipher.gives d) g sources.now.all → StartsAbove (world C.Cipher.gives d) g sources.now.height.levels sources.now.own sources.now.above → WroteFile (world C.Cipher.gives d) g sources.now.height.levels sources.now.receiver out.old out.new }
{
    out[0..HEAD].copy_from_slice(&head_bytes(sources.height.levels, sources.receiver, sources.all));
    write_levels(cipher, sources, &mut out[HEAD..]);
}
