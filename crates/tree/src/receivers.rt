//! Lists of receivers, and what can be wrong with one. Assumes nothing.
ghost use Rattle.std.specs.Prelude.{◌≡◌, ℕ, ◌<◌, List, [], length, Some, MatchResult, nat_le, nat_lt, slice_index};
ghost use Rattle.fault.specs.declared.Fault.TheVariants.{OutOfRange, NotRising};
ghost use Rattle.fault.specs.Lowest.{when, lower, lowest};
ghost use Rattle.tree.specs.Receivers.{list_faults};

use crate::heights::Height;
pub use crate::heights::MAX_HEIGHT;
use fault::{Fault, lower_of};

/// A list of receivers, wherever it is kept.
pub trait ReceiverList {
    ghost list: { Self → List ℕ };

    fn count(&self) -> usize
        ensures { result ≡ length (list self.now) };

    fn at(&self, index: usize) -> u32
        requires { index < length (list self.now) }
        ensures { result ≡ slice_index (list self.now) index };
}

impl<'a> ReceiverList for &'a [u32] {
    ghost list = { λ s. s.now };

    fn count(&self) -> usize {
        self.len()
    }

    fn at(&self, index: usize) -> u32 {
        self[index]
    }
}

/// The lowest fault of a list of receivers for a tree of this height.
pub fn fault_in<L: ReceiverList>(height: u8, receivers: &L) -> Option<Fault>
    ensures { result ≡ lowest (list_faults height (L.list receivers.now)) }
{
    let Ok(height) = Height::try_from(height) else {
        return Some(Fault::OutOfRange);
    };
    // Two flags, which a turn sets without a branch: one running fault would have each turn ask what was found before.
    let end = height.receivers();
    let mut outside = false;
    let mut unordered = false;
    let mut least = 0;
    // A list is known by its count and places wherever it is kept, so it is gone through by them.
    for i in 0..receivers.count() {
        let receiver = receivers.at(i);
        outside |= receiver >= end;
        unordered |= u64::from(receiver) < least;
        least = u64::from(receiver) + 1;
    }
    lower_of(
        Fault::OutOfRange.when(outside),
        Fault::NotRising.when(unordered),
    )
}

/// Receivers of a tree, in a list in which there is no fault.
#[derive(Clone, Copy)]
pub struct Receivers<'a> {
    pub height: Height,
    pub list: &'a [u32],
    ghost faultless: { list_faults height.levels list.now ≡ [] },
}

impl<'a> Receivers<'a> {
    /// The receivers of a list, or its lowest fault.
    pub fn judged(height: u8, list: &'a [u32]) -> Result<Receivers<'a>, Fault>
        ensures { MatchResult result (λ receivers. (receivers.height.levels ≡ height) × (receivers.list.now ≡ list.now)) (λ fault. lowest (list_faults height list.now) ≡ Some fault) }
    {
        if let Some(fault) = fault_in(height, &list) {
            return Err(fault);
        }
        Ok(Receivers {
            height: Height::try_from(height)?,
            list,
        })
    }
}
