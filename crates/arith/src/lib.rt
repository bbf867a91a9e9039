// Sizes of data, and arithmetic on words of 64 bits, stated on whole numbers.
#![tactic(auto)]

pub mod bits;
pub mod flags;
pub mod products;
pub mod signs;
pub mod sums;
pub mod width;
