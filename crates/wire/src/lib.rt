//! The file formats, read and written.
#![tactic(auto)]

mod entry;
pub mod head;
pub mod labels;
mod places;
mod reading;
pub mod revocation;
pub mod sending;
mod words;
