// How a job ends.
use crate::fault::Fault;

#[derive(Clone, Copy, PartialEq, Eq, Debug)]
pub enum Ending {
    // with a code
    Halt(u8),
    // with the three fields of the word
    Trap(u8, u8, u8),
    Fault(Fault),
}
