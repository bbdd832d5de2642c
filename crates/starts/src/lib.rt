//! The file of starts, read once from front to end in any pieces: what is kept of it are the starts of the nodes above some receivers.
//! It is the one format that needs a heap to be read, so it stands apart from the others.
#![tactic(auto)]

mod filling;
pub mod head;
mod judging;
mod lookup;
mod nodes;
mod piece;
pub mod reader;
mod reading;
mod start;
pub mod table;
