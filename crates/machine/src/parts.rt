// A machine by its parts.
use crate::bank::Bank;

// A register file, a memory and a console, each lent for as long as its owner likes. The parts always go together: no
// call on a machine puts another one in the place of any of them. That is said of before and after, so no type can
// carry it.
#[derive(Drop)]
pub struct Machine<'b, 'm, 'c, M, C> {
    pub bank: &'b mut Bank,
    pub memory: &'m mut M,
    pub console: &'c mut C,
}
