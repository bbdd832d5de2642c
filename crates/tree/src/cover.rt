//! The cover: parts that make up all receivers but the revoked. It is made by walking down only where somebody is revoked, so that its work
//! grows with the number of revoked times the height. Assumes nothing.
ghost use Rattle.std.specs.Prelude.{◌≡◌, ◌+◌, ◌-◌, ◌*◌, ◌^◌, ◌<◌, ◌≤◌, T, [], length, take, IfOk, nat_le};
ghost use Rattle.tree.specs.Written.{closed, cover_answer};
ghost use Rattle.fault.specs.Memory.{over, afterwards};
ghost use Rattle.tree.specs.Nodes.{first_below};
ghost use Rattle.tree.specs.Receivers.{Cut, all_below, rising_from, rising};
ghost use Rattle.tree.specs.Cover.{close, work, cover};
ghost use Rattle.tree.specs.Promise.{most, Covers};

use crate::parts::Part;
use crate::receivers::Receivers;
use crate::subtree::Subtree;
use fault::Refusal;

/// How many of the rising receivers come before `middle`. That they rise is asked here and by what leads down to here; `cover` has judged it.
fn count_before(receivers: &[u32], middle: u32) -> usize
    requires { T (rising receivers.now) }
    ensures within { result ≤ length receivers.now }
    ensures cut { Cut receivers.now result middle }
{
    receivers.partition_point(|receiver| *receiver < middle)
}

/// How many of the rising receivers are on the left side of a node that is not at the bottom.
fn count_left(at: Subtree, receivers: &[u32]) -> usize
    requires inner { 0 < at.levels }
    requires rising { T (rising receivers.now) }
    ensures within { result ≤ length receivers.now }
    ensures cut { Cut receivers.now result (first_below at.height.levels (at.levels - 1) (2 * at.node + 1)) }
{
    count_before(receivers, at.side(2 * at.node + 1).first_receiver())
}

/// Writes the part that closes `side` where `node` is named below it, unless that is the side's own node.
fn close_side(side: u32, node: u32, free: &mut [Part]) -> usize
    requires { 0 < length free.old }
    ensures wrote { free.new ≡ over (close side node []) free.old }
    ensures count { result ≡ length (close side node []) }
{
    if side == node {
        return 0;
    }
    free[0] = Part {
        first: side,
        second: node,
    };
    1
}

/// Covers the receivers below `at` that are not revoked, for the `side` that is to be closed where a node is named. Its parts go to the front of
/// the free memory; it answers how many they are.
fn cover_branch(at: Subtree, side: u32, revoked: &[u32], free: &mut [Part]) -> usize
    requires rising { T (rising_from (first_below at.height.levels at.levels at.node) revoked.now) }
    requires below { T (all_below (first_below at.height.levels at.levels at.node + 2 ^ at.levels) revoked.now) }
    requires room { 2 * length revoked.now ≤ length free.old + 1 }
    ensures wrote { free.new ≡ over (closed side (work at.height.levels revoked.now at.levels at.node)) free.old }
    ensures count { result ≡ length (closed side (work at.height.levels revoked.now at.levels at.node)) }
{
    if revoked.is_empty() {
        return 0;
    }
    if at.levels == 0 {
        return close_side(side, at.node, free);
    }
    let split = count_left(at, revoked);
    let left = at.side(2 * at.node);
    let right = at.side(2 * at.node + 1);
    if split == 0 {
        return cover_branch(right, side, revoked, free);
    }
    if split == revoked.len() {
        return cover_branch(left, side, revoked, free);
    }
    let closing = close_side(side, at.node, free);
    let on_left = cover_branch(left, left.node, &revoked[0..split], &mut free[closing..]);
    let used = closing + on_left;
    let on_right = cover_branch(right, right.node, &revoked[split..], &mut free[used..]);
    used + on_right
}

/// Whether there is room for the most parts that so many revoked can make.
pub fn has_room(revoked: usize, room: usize) -> bool
    ensures { result ≡ nat_le (most revoked) room }
{
    room > 0 && revoked <= (room - 1) / 2 + 1
}

/// Writes the parts that cover all receivers but the revoked, whose list was judged, to the front of `out`, and answers how many they are.
pub fn cover_judged(revoked: Receivers, out: &mut [Part]) -> Result<usize, Refusal>
    ensures answer { result ≡ cover_answer revoked.entry.height.levels revoked.entry.list.now (length out.old) }
    ensures memory { out.new ≡ afterwards result (cover revoked.entry.height.levels revoked.entry.list.now) out.old }
    ensures within { IfOk result (λ n. n ≤ length out.new) }
    ensures covers { IfOk result (λ n. Covers revoked.entry.height.levels revoked.entry.list.now (take n out.new)) }
{
    let height = revoked.height;
    let list = revoked.list;
    if !has_room(list.len(), out.len()) {
        return Err(Refusal::NoRoom);
    }
    if list.is_empty() {
        out[0] = Part::ALL;
        return Ok(1);
    }
    Ok(cover_branch(Subtree::whole(height), 1, list, out))
}

/// Writes the parts that cover all receivers but the revoked to the front of `out`, which is lent since no heap is needed, and answers how many they
/// are.
pub fn cover(height: u8, revoked: &[u32], out: &mut [Part]) -> Result<usize, Refusal>
    ensures answer { result ≡ cover_answer height revoked.now (length out.old) }
    ensures memory { out.new ≡ afterwards result (cover height revoked.now) out.old }
    ensures within { IfOk result (λ n. n ≤ length out.new) }
    ensures covers { IfOk result (λ n. Covers height revoked.now (take n out.new)) }
{
    cover_judged(Receivers::judged(height, revoked)?, out)
}
