//! A receiver's label file, from the starts that were read for it. Assumes nothing.
ghost use Rattle.std.specs.Prelude.{◌≡◌, ℕ, ◌≤◌, false, not, List, length, take, IfOk, MatchOption, OnErr};
ghost use Rattle.fault.specs.declared.Fault.TheVariants.{OutOfRange};
ghost use Rattle.fault.specs.Lowest.{when, lowest};
ghost use Rattle.fault.specs.Memory.{fitted, afterwards};
ghost use Rattle.secrecy.specs.Held.{held};
ghost use Rattle.secrecy.specs.Worlds.{seen};
ghost use Rattle.keys.specs.Drawn.{Draws, world};
ghost use Rattle.wire.specs.Labels.{labels_size, ReadsAsHeld};
ghost use Rattle.starts.specs.Drawn.{DrawnIn};
ghost use Rattle.starts.specs.Reading.{HasStarts};
ghost use Rattle.issuing.specs.Issued.{held_file};
ghost use Rattle.issuing.specs.Served.{all_kept, is_served, AskedServed, AllAbove};
ghost use Rattle.issuing.specs.Gathered.{GatheredFor};

use crate::file::{LEVELS, Sources, write_file};
use fault::{Fault, Refusal};
use keys::Key;
use keys::cipher::Cipher;
use starts::table::Starts;
use tree::heights::Height;
use wire::labels::size_of_labels;

/// The starts of the nodes above a leaf, from below upwards, if all were kept.
fn starts_above(starts: &Starts, height: Height, own: u32) -> Option<[Key; LEVELS]>
    ensures { (h : ℕ) (us s : List ℕ) → HasStarts h us s starts.now → MatchOption result (all_kept h us own height.levels ≡ false) (AllAbove h us s own height.levels) }
{
    let mut above = [[0; 32]; LEVELS];
    for level in 0..height.levels {
        above[level as usize] = starts.of(own >> (level + 1))?;
    }
    Some(above)
}

/// What a receiver's labels come from, if it is in the tree and all of it was kept.
fn gather(starts: &Starts, receiver: u32) -> Option<Sources>
    ensures { (h : ℕ) (us s : List ℕ) → HasStarts h us s starts.now → MatchOption result (is_served h us receiver ≡ false) (GatheredFor h us s receiver) }
{
    let height = Height::try_from(starts.height()).ok()?;
    let own = height.leaf(receiver)?;
    let all = starts.of(0)?;
    let above = starts_above(starts, height, own)?;
    Some(Sources {
        height,
        receiver,
        own,
        all,
        above,
    })
}

/// Writes a receiver's label file to the front of the lent memory, and answers how many bytes it has. A refusal leaves the memory as it was.
pub fn write_labels<C: Cipher>(
    cipher: &mut C,
    starts: &Starts,
    receiver: u32,
    out: &mut [u8],
) -> Result<usize, Refusal>
    ensures answer { (h : ℕ) (us s : List ℕ) → HasStarts h us s starts.now → result ≡ fitted (lowest (when (not (is_served h us receiver)) OutOfRange)) (labels_size h) (length out.old) (labels_size h) }
    ensures asked { AskedServed }
    ensures within { IfOk result (λ n. n ≤ length out.old) }
    ensures memory { (h : ℕ) (us s : List ℕ) (d : Draws) (g : ℕ) → HasStarts h us s starts.now → DrawnIn s g h d → out.new ≡ afterwards result (held_file (world C.Cipher.gives d) g h receiver) out.old }
    ensures read_back { (h : ℕ) (us s : List ℕ) (d : Draws) (g : ℕ) → HasStarts h us s starts.now → DrawnIn s g h d → IfOk result (λ n. ReadsAsHeld (take n out.new) h receiver (seen (world C.Cipher.gives d) (held g h receiver))) }
    ensures refused { OnErr result (out.new ≡ out.old) }
{
    let Some(sources) = gather(starts, receiver) else {
        return Err(Fault::OutOfRange.into());
    };
    let size = size_of_labels(sources.height.levels);
    if out.len() < size {
        return Err(Refusal::NoRoom);
    }
    write_file(cipher, &sources, out);
    Ok(size)
}
