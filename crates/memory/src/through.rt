// A write by an address of the memory that a rule and a work slice make.
ghost use Rattle.std.specs.Prelude.{◌≡◌};
ghost use Rattle.memory.specs.Cells.{write_says};
ghost use Rattle.memory.specs.Slices.{lent, work_marks, work_after};

use crate::cells::{CellFault, Memory};
use crate::fixed::Fixed;
use crate::joined::Joined;

// Writes one byte through the joined memory of a fixed rule and an open work. The work slice holds it then, where the
// memory has an open cell at the address, and is as it was otherwise.
pub fn write_through(rule: &[u8], work: &mut [u8], at: u64, byte: u8) -> Result<(), CellFault>
    ensures answer { result ≡ write_says (work_marks (lent rule.now) work.old) at }
    ensures work { work.new ≡ work_after (lent rule.now) work.old at byte }
{
    let mut memory = Joined::new(Fixed::new(rule), work);
    memory.write(at, byte)
}
