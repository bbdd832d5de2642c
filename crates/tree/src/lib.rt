//! The tree of receivers, and the parts that cover all of them but the revoked.
#![tactic(auto)]

ghost use Rattle.tree.specs.Promise.{CoverCovers, Worked};

pub mod cover;
pub mod heights;
pub mod nodes;
pub mod numbers;
pub mod parts;
pub mod receivers;
mod subtree;
mod walk;
pub mod way;

/// What is promised of covers in trees of every height, and the worked cases.
pub fn cover_theorems()
    ensures covers { CoverCovers }
    ensures worked { Worked }
{}
