//! Walking a receiver's way up the tree, from one node that hangs off it to the next. Assumes nothing.
ghost use Rattle.std.specs.Prelude.{◌≡◌, ◌^◌, ◌<◌, ◌&&◌, [], is_some, IfSome, MatchOption, nat_lt};
ghost use Rattle.tree.specs.Receivers.{is_height};
ghost use Rattle.std.specs.Iterator.{YieldsFirst, item_count};
ghost use Rattle.tree.specs.Ways.{way};
ghost use Rattle.tree.specs.Walks.{left_of};

use crate::nodes::{leaf_of, sibling_of};
use crate::parts::Part;
use crate::way::Way;

impl Way {
    /// The way of a receiver, if the tree has it.
    pub fn of(height: u8, receiver: u32) -> Option<Way>
        ensures there { is_some result ≡ (is_height height && nat_lt receiver (2 ^ height)) }
        ensures whole { IfSome result (λ w. left_of w ≡ way height receiver) }
    {
        let leaf = leaf_of(height, receiver)?;
        Some(Way {
            leaf,
            first: leaf,
            steps: 0,
            node: leaf,
            hanging: 0,
            above: height,
        })
    }

    /// The way from where something hangs off it: here, or under the next node above.
    fn climbed(self) -> Option<Way>
        ensures { MatchOption result (left_of self ≡ []) (λ w. (0 < w.hanging) × (left_of self ≡ left_of w)) }
    {
        if self.hanging > 0 {
            return Some(self);
        }
        if self.above == 0 {
            return None;
        }
        let steps = self.steps + 1;
        Some(Way {
            leaf: self.leaf,
            first: self.first / 2,
            steps,
            node: self.leaf,
            hanging: steps,
            above: self.above - 1,
        })
    }
}

/// The nodes that hang off the way, each as a part under a node on it.
impl Iterator for Way {
    type Item = Part;

    ghost next_gives = { YieldsFirst left_of };

    ghost remaining = { item_count left_of };

    fn next(&mut self) -> Option<Part> {
        *self = self.climbed()?;
        let part = Part {
            first: self.first,
            second: sibling_of(self.node),
        };
        self.node /= 2;
        self.hanging -= 1;
        Some(part)
    }
}
