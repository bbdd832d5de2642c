//! A receiver's way up the tree, as far as it has not been walked. Assumes nothing.
ghost use Rattle.std.specs.Prelude.{◌+◌, ◌≤◌};
ghost use Rattle.tree.specs.Nodes.{max_height};

/// What is left of a way: under node `first`, which is `steps` above the leaf, `hanging` nodes from beside `node` upwards; and then what hangs
/// off it under the `above` nodes above that one.
#[derive(Clone, Copy)]
pub struct Way {
    pub(crate) leaf: u32,
    pub(crate) first: u32,
    pub(crate) steps: u8,
    pub(crate) node: u32,
    pub(crate) hanging: u8,
    pub(crate) above: u8,
    ghost low: { steps + above ≤ max_height },
}
