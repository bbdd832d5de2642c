//! Sendings: a session key under the key of each part of a cover.
#![tactic(auto)]

mod header;
mod headers;
pub mod send;
mod show;
