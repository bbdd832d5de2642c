//! A node with all that is below it. Assumes nothing.
ghost use Rattle.std.specs.Prelude.{◌≡◌, ◌-◌, ◌/◌, ◌<◌};
ghost use Rattle.tree.specs.Nodes.{Stands, first_below};

use crate::heights::Height;

/// A node of a tree of some height, with the number of levels below it.
#[derive(Clone, Copy)]
pub struct Subtree {
    pub height: Height,
    pub levels: u8,
    pub node: u32,
    ghost stands: { Stands height.levels levels node },
}

impl Subtree {
    /// The whole of a tree.
    pub fn whole(height: Height) -> Subtree
        ensures height { result.height.levels ≡ height.levels }
        ensures levels { result.levels ≡ height.levels }
        ensures node { result.node ≡ 1 }
    {
        Subtree {
            height,
            levels: height.levels,
            node: 1,
        }
    }

    /// The side of a node that is not at the bottom at whose top this node stands.
    pub fn side(self, node: u32) -> Subtree
        requires inner { 0 < self.levels }
        requires beneath { node / 2 ≡ self.node }
        ensures height { result.height.levels ≡ self.height.levels }
        ensures levels { result.levels ≡ self.levels - 1 }
        ensures node { result.node ≡ node }
    {
        Subtree {
            height: self.height,
            levels: self.levels - 1,
            node,
        }
    }

    /// The first receiver below the node.
    pub fn first_receiver(self) -> u32
        ensures { result ≡ first_below self.height.levels self.levels self.node }
    {
        (self.node << self.levels) - (1 << self.height.levels)
    }
}
