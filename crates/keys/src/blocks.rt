//! The two ends of a block, and which block serves for a number. Assumes nothing.
ghost use Rattle.std.specs.Prelude.{◌≡◌, ◌+◌, ◌-◌, ◌<◌, ◌≤◌, take, drop, MatchResult};
ghost use Rattle.fault.specs.declared.Fault.TheVariants.{OutOfRange};
ghost use Rattle.keys.specs.Promise.{last_number};

use crate::cipher::Block;
use fault::Fault;

pub fn front<const N: usize>(block: &Block) -> [u8; N]
    requires { N ≤ 64 }
    ensures { result ≡ take N block.now }
{
    *block.first_chunk().unwrap()
}

pub fn back<const N: usize>(block: &Block) -> [u8; N]
    requires { N ≤ 64 }
    ensures { result ≡ drop (64 - N) block.now }
{
    *block.last_chunk().unwrap()
}

/// The counter of the block for a number.
pub fn counter_of(number: u32) -> Result<u32, Fault>
    ensures { MatchResult result (λ c. (number ≤ last_number) × (c ≡ number + 2)) (λ e. (e ≡ OutOfRange) × (last_number < number)) }
{
    number.checked_add(2).ok_or(Fault::OutOfRange)
}
