// The machine: registers, faults, and one try of an instruction over any memory and any console.
#![tactic(auto)]

pub mod attempt;
pub mod bank;
mod compute;
pub mod ending;
mod execute;
pub mod fault;
mod operands;
pub mod parts;
mod transfer;
