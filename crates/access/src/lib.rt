// Loads, stores and fetches: accesses to several cells of a memory, highest byte first.
#![tactic(auto)]

mod align;
pub mod fault;
pub mod load;
pub mod store;
