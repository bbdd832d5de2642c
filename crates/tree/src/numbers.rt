//! The numbers of sendings and trials. Assumes nothing.
ghost use Rattle.std.specs.Prelude.{◌≡◌, nat_lt};
ghost use Rattle.fault.specs.declared.Fault.TheVariants.{OutOfRange};
ghost use Rattle.fault.specs.Lowest.{when, lowest};
ghost use Rattle.tree.specs.Numbers.{last_number};

use fault::Fault;

/// The highest number of a sending: the counter of its block is the highest.
pub const LAST_NUMBER: u32 = 0xffff_fffd;

/// What is wrong with a number.
pub fn fault_in_number(number: u32) -> Option<Fault>
    ensures { result ≡ lowest (when (nat_lt last_number number) OutOfRange) }
{
    Fault::OutOfRange.when(number > LAST_NUMBER)
}
