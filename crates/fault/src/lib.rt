//! Why a thing is refused: the causes, the number of each, and the lowest of several.
//! Assumes nothing.
#![tactic(auto)]

ghost use Rattle.std.specs.Prelude.{◌≡◌, Some};
ghost use Rattle.fault.specs.declared.Refusal.TheVariants.{Faulty};
ghost use Rattle.fault.specs.Numbers.{number_of, number_in};
ghost use Rattle.fault.specs.Lowest.{when, lower, lowest, LowestLeast};

use std::fmt;

/// A cause of refusal, with its number. All of a thing is read before it is refused, and the cause with the lowest number is the answer.
#[derive(Clone, Copy, Debug, PartialEq, Eq, PartialOrd, Ord)]
pub enum Fault {
    /// Another kind of thing, or a length that it cannot have.
    Malformed = 1,
    /// A height, number, receiver or node that is not one of this tree.
    OutOfRange = 2,
    /// Receivers that do not rise from one to the next.
    NotRising = 3,
    /// A part whose second node is not below its first.
    ImproperPart = 4,
    /// Two parts that share a receiver.
    SharedReceiver = 5,
    /// Labels that are not those of the receiver's way, in their order.
    WrongLabels = 6,
    /// More revoked receivers than a list may have.
    TooManyRevoked = 7,
    /// The receiver is in no part.
    NotCovered = 8,
    /// All headers of the receiver's parts are false.
    AllFalse = 9,
    /// A box under trial that shows with all headers false, or does not show with none.
    NotTraceable = 10,
}

impl Fault {
    /// The number that programs print for the cause.
    pub fn number(self) -> u8
        ensures { result ≡ number_of self }
    {
        self as u8
    }

    /// The fault, if there is cause for it.
    pub fn when(self, cause: bool) -> Option<Fault>
        ensures { result ≡ lowest (when cause self) }
    {
        cause.then_some(self)
    }
}

/// The cause in a sentence for people.
impl fmt::Display for Fault {
    fn fmt<W: fmt::Write>(&self, f: &mut fmt::Formatter<W>) -> fmt::Result {
        f.write_str(match self {
            Fault::Malformed => "another kind of file, or a length that it cannot have",
            Fault::OutOfRange => "a height, number, receiver or node that is not one of this tree",
            Fault::NotRising => "the receivers do not rise from one to the next",
            Fault::ImproperPart => "a part whose second node is not below its first",
            Fault::SharedReceiver => "two parts share a receiver",
            Fault::WrongLabels => "labels that are not those of the receiver's way, in their order",
            Fault::TooManyRevoked => "more than 4,096 revoked receivers",
            Fault::NotCovered => "the receiver is in no part of the sending",
            Fault::AllFalse => "all headers of the receiver's parts are false",
            Fault::NotTraceable =>
                "the box shows with all headers false, or does not show with none",
        })
    }
}

/// Why a thing is not written into lent memory.
#[derive(Clone, Copy, Debug, PartialEq, Eq)]
pub enum Refusal {
    /// What was asked for has faults, of which this is the lowest.
    Faulty(Fault),
    /// The lent memory is too short.
    NoRoom,
}

impl From<Fault> for Refusal {
    ghost from_gives = { λ fault refusal. refusal ≡ Faulty fault };

    fn from(fault: Fault) -> Refusal {
        Refusal::Faulty(fault)
    }
}

/// The number of the fault of an answer, or 0.
pub fn number_in<T: Drop>(answer: Result<T, Fault>) -> u8
    ensures { result ≡ number_in answer }
{
    answer.err().map_or(0, Fault::number)
}

/// A fault, or another one that has a lower number.
pub fn lower_than(fault: Fault, other: Option<Fault>) -> Fault
    ensures { Some result ≡ lower (Some fault) other }
{
    other.map_or(fault, |other| fault.min(other))
}

/// The fault with the lower number, of two that may be missing.
#[tactic(auto, using(crate::proofs::Lowest::lowest_least))]
pub fn lower_of(a: Option<Fault>, b: Option<Fault>) -> Option<Fault>
    ensures lower { result ≡ lower a b }
    ensures least { LowestLeast }
{
    let Some(fault) = a else {
        return b;
    };
    Some(lower_than(fault, b))
}
