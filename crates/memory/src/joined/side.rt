// Where an address of two memories lies.
ghost use Rattle.memory.specs.Sides.{Lies};

use crate::cells::{CellFault, MOST_CELLS};

// The memory that has the cell of an address.
pub(crate) enum Side {
    First,
    // with the address there
    Second(u64),
}

// The border is the size of the first memory. Beyond the cut there is no cell.
pub(crate) fn locate(border: usize, at: u64) -> Result<Side, CellFault>
    ensures { Lies border at result }
{
    if at < border as u64 {
        Ok(Side::First)
    } else if at < MOST_CELLS as u64 {
        Ok(Side::Second(at - border as u64))
    } else {
        Err(CellFault::Outside)
    }
}
