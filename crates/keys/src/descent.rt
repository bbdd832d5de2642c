//! Going down the tree: from a label to one below it, and from a start to the key of a part. What is promised holds in a tree of every height that
//! has the node. Assumes nothing.
ghost use Rattle.std.specs.Prelude.{◌≡◌, ℕ, suc, ◌^◌, ◌<◌, false, T, [], is_some, IfSome, if◌then◌else◌, Some, None, MatchResult};
ghost use Rattle.fault.specs.declared.Fault.TheVariants.{ImproperPart};
ghost use Rattle.tree.specs.Parts.{proper};
ghost use Rattle.keys.specs.Down.{reaches, steps_down, last_nodes, nodes_down, down};
ghost use Rattle.keys.specs.Promise.{WorksOut, LabelDown, PartKey, AskedDown, AskedKey};

use crate::Key;
use crate::cipher::Cipher;
use crate::labels::{middle, side};
use fault::Fault;
use tree::parts::Part;

/// How many steps node `to` is below node `from`, if it is.
fn steps_down(from: u32, to: u32) -> Option<u32>
    ensures { (h : ℕ) → to < 2 ^ suc h → result ≡ (if reaches h from to then Some (steps_down h from to) else None) }
{
    let steps = to.checked_ilog2()?.checked_sub(from.checked_ilog2()?)?;
    (to >> steps == from).then_some(steps)
}

/// The label so many steps further down, on the way to node `to`.
fn walk<C: Cipher>(cipher: &mut C, label: Key, to: u32, steps: u32) -> Key
    ensures term { WorksOut C.Cipher.gives (down (last_nodes steps to)) label result }
    ensures asked { AskedDown C.Cipher.gives C.Cipher.steps (last_nodes steps to) label cipher.old cipher.new }
{
    let mut here = label;
    for left in (0..steps).rev() {
        // Not `here = side(..)`, for which no proof is generated.
        let next = side(cipher, here, to.unbounded_shr(left));
        here = next;
    }
    here
}

/// The label of node `to`, from that of node `from`, if `to` is at or below it. No node is below 0.
pub fn descend<C: Cipher>(cipher: &mut C, label: Key, from: u32, to: u32) -> Option<Key>
    ensures refuses { (h : ℕ) → to < 2 ^ suc h → is_some result ≡ reaches h from to }
    ensures term { (h : ℕ) → to < 2 ^ suc h → IfSome result (WorksOut C.Cipher.gives (down (nodes_down h from to)) label) }
    ensures label { (h : ℕ) → to < 2 ^ suc h → IfSome result (LabelDown C.Cipher.gives h from to label) }
    ensures asked { (h : ℕ) → to < 2 ^ suc h → AskedDown C.Cipher.gives C.Cipher.steps (if reaches h from to then nodes_down h from to else []) label cipher.old cipher.new }
{
    let steps = steps_down(from, to)?;
    Some(walk(cipher, label, to, steps))
}

/// How many steps the second node of a proper part is below the first.
fn steps_within(part: Part) -> Option<u32>
    ensures { (h : ℕ) → part.second < 2 ^ suc h → result ≡ (if proper h part then Some (steps_down h part.first part.second) else None) }
{
    match part {
        Part {
            first: 0,
            second: 0,
        } => Some(0),
        Part { first, second } if first == second => None,
        Part { first, second } => steps_down(first, second),
    }
}

/// The key of a part, from the start of its first node; that of all receivers comes from the start of 0.
pub fn part_key<C: Cipher>(cipher: &mut C, start: Key, part: Part) -> Result<Key, Fault>
    ensures answer { (h : ℕ) → part.second < 2 ^ suc h → MatchResult result (λ k. T (proper h part) × PartKey C.Cipher.gives h part start k) (λ e. (e ≡ ImproperPart) × (proper h part ≡ false)) }
    ensures asked { (h : ℕ) → part.second < 2 ^ suc h → AskedKey C.Cipher.gives C.Cipher.steps h part start cipher.old cipher.new }
{
    let steps = steps_within(part).ok_or(Fault::ImproperPart)?;
    let label = walk(cipher, start, part.second, steps);
    Ok(middle(cipher, label))
}
