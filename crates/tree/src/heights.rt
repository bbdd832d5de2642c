//! Heights that a tree may have, and what a tree of one has. Assumes nothing.
ghost use Rattle.std.specs.Prelude.{◌≡◌, ◌^◌, ◌<◌, ◌≤◌, false, if◌then◌else◌, Some, None, MatchResult, nat_lt};
ghost use Rattle.fault.specs.declared.Fault.TheVariants.{OutOfRange};
ghost use Rattle.tree.specs.Nodes.{max_height, leaf, in_tree};
ghost use Rattle.tree.specs.Receivers.{is_height};

use fault::Fault;

/// The greatest height of a tree.
pub const MAX_HEIGHT: u8 = 16;

/// A height that a tree may have: so many levels are below its top.
#[derive(Clone, Copy, Debug, PartialEq, Eq)]
pub struct Height {
    pub levels: u8,
    ghost some: { 0 < levels },
    ghost low: { levels ≤ max_height },
}

impl TryFrom<u8> for Height {
    type Error = Fault;

    ghost try_from_gives = { λ levels result. MatchResult result (λ height. height.levels ≡ levels) (λ fault. (fault ≡ OutOfRange) × (is_height levels ≡ false)) };

    fn try_from(levels: u8) -> Result<Height, Fault> {
        if levels == 0 || levels > MAX_HEIGHT {
            return Err(Fault::OutOfRange);
        }
        Ok(Height { levels })
    }
}

impl Height {
    /// How many receivers the tree has.
    pub fn receivers(self) -> u32
        ensures { result ≡ 2 ^ self.levels }
    {
        1 << self.levels
    }

    /// The node of a receiver, if the tree has it.
    pub fn leaf(self, receiver: u32) -> Option<u32>
        ensures { result ≡ (if nat_lt receiver (2 ^ self.levels) then Some (leaf self.levels receiver) else None) }
    {
        if receiver < self.receivers() {
            Some(self.receivers() + receiver)
        } else {
            None
        }
    }

    /// Whether the tree has a node.
    pub fn has_node(self, node: u32) -> bool
        ensures { result ≡ in_tree self.levels node }
    {
        0 < node && node < 2 * self.receivers()
    }
}
