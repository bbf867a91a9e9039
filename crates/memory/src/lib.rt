// Memories: lists of byte cells, each with a fixed mark that says whether it may be written.
#![tactic(auto)]

pub mod cells;
pub mod fixed;
pub mod joined;
pub mod limits;
pub mod opened;
mod slices;
pub mod through;
