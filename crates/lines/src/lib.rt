// The one line of each instruction: writing it, and reading it back.
#![tactic(auto)]

pub mod argument;
pub mod line;
mod names;
mod pieces;
pub mod reading;
pub mod words;
pub mod writing;
