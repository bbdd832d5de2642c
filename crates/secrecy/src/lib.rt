//! What opened receivers can work out together, over everything that is ever sent: theorems, and no code.
#![tactic(auto)]

ghost use Rattle.secrecy.specs.Blind.{Blind, Covered, Found, HeaderBytes, OnlyLeft, ShowsBytes, SomeWorld, Unfound};
ghost use Rattle.secrecy.specs.Cases.{KeysOfZeroAndFive, LabelsOfTwo, NumberTwiceHappens, RunStands, StepsOfTwo};
ghost use Rattle.secrecy.specs.Promise.{HeldCount, HeldLabels, KeyExact, KeyFromLabels, MoreAir, MoreReceivers};
ghost use Rattle.secrecy.specs.Promise.{NumberTwice, SessionFromLabels, Shows, ShowsOnce, TrialsGiveNothing};

/// What can be worked out by the rules of keys as terms, from labels in hand and by receivers.
pub fn secrecy_over_terms()
    ensures shows { Shows }
    ensures shows_once { ShowsOnce }
    ensures key { KeyExact }
    ensures key_from_labels { KeyFromLabels }
    ensures session_from_labels { SessionFromLabels }
    ensures held_count { HeldCount }
    ensures held_labels { HeldLabels }
    ensures trials { TrialsGiveNothing }
    ensures number_twice { NumberTwice }
    ensures more_receivers { MoreReceivers }
    ensures more_air { MoreAir }
{}

/// What can be computed from bytes, with any block function, by whatever computation.
pub fn secrecy_over_bytes()
    ensures shows { ShowsBytes }
    ensures only_left { OnlyLeft }
    ensures found { Found }
    ensures unfound { Unfound }
    ensures blind { Blind }
    ensures covered { Covered }
    ensures header { HeaderBytes }
    ensures world { SomeWorld }
{}

/// Worked cases, in trees of height 3.
pub fn worked_cases()
    ensures labels { LabelsOfTwo }
    ensures steps { StepsOfTwo }
    ensures keys { KeysOfZeroAndFive }
    ensures run { RunStands }
    ensures number_twice { NumberTwiceHappens }
{}
