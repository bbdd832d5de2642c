//! The starts of rising nodes, filled as the file's pieces come. Assumes nothing.
ghost use Rattle.std.specs.Prelude.{◌≡◌, ℕ, ◌≤◌, T, List, ◌++◌, length};
ghost use Rattle.std.specs.List.{All};
ghost use Rattle.tree.specs.Receivers.{rising};
ghost use Rattle.starts.specs.Format.{start_at};
ghost use Rattle.starts.specs.Window.{counted, AsRead, nodes_of, Complete};

use crate::piece::Piece;
use crate::start::Start;

/// Where the start of a node begins in the file.
pub fn start_at(node: u32) -> usize
    ensures { result ≡ start_at node }
{
    2 + 32 * node as usize
}

/// Copies what a piece has of a start.
fn fill_start(start: &mut Start, piece: Piece)
    ensures node { start.new.node ≡ start.old.node }
    ensures filled { (s : List ℕ) → piece.entry.at ≡ counted s → AsRead s start.old → AsRead (s ++ piece.entry.bytes.now) start.new }
{
    piece.copy_to(start_at(start.node), &mut start.bytes);
}

/// Copies what a piece has of some starts, and answers how many, from the first on, are complete then.
pub fn fill_starts(starts: &mut [Start], piece: Piece) -> usize
    ensures within { result ≤ length starts.new }
    ensures nodes { nodes_of starts.new ≡ nodes_of starts.old }
    ensures filled { (s : List ℕ) → piece.entry.at ≡ counted s → T (rising (nodes_of starts.old)) → All (AsRead s) starts.old → All (AsRead (s ++ piece.entry.bytes.now)) starts.new × Complete result (nodes_of starts.old) (s ++ piece.entry.bytes.now) }
{
    let end = piece.end();
    for (k, start) in starts.iter_mut().enumerate() {
        fill_start(start, piece);
        if start_at(start.node) + 32 > end {
            return k;
        }
    }
    starts.len()
}
