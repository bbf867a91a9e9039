// The instruction set: words of four bytes and the instructions that they stand for.
#![tactic(auto)]

pub mod distance;
pub mod instruction;
pub mod opcode;
mod table;
pub mod word;
