//! Label files: what each receiver is given to hold.
#![tactic(auto)]

mod entries;
mod file;
pub mod issue;
