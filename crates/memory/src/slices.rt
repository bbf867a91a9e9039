// What a lent slice is as a memory, whether or not it may be written.
ghost use Rattle.std.specs.Prelude.{◌≡◌, length, take, drop, replicate};
ghost use Rattle.memory.specs.Cells.{read_at, write_says};
ghost use Rattle.memory.specs.Slices.{lent};

use crate::cells::{CellFault, MOST_CELLS};

// The bytes of the slice that are cells.
pub(crate) fn cells_of(bytes: &[u8]) -> &[u8]
    ensures { result.now ≡ lent bytes.now }
{
    if bytes.len() <= MOST_CELLS {
        bytes
    } else {
        &[]
    }
}

// How many cells the slice makes.
pub(crate) fn size_of(bytes: &[u8]) -> usize
    ensures { result ≡ length (lent bytes.now) }
{
    cells_of(bytes).len()
}

pub(crate) fn read_from(bytes: &[u8], at: u64) -> Result<u8, CellFault>
    ensures { result ≡ read_at (lent bytes.now) at }
{
    cells_of(bytes)
        .get(at as usize)
        .copied()
        .ok_or(CellFault::Outside)
}

// All cells from an address on.
pub(crate) fn stretch_of(bytes: &[u8], at: u64) -> &[u8]
    ensures { result.now ≡ drop at (lent bytes.now) }
{
    cells_of(bytes).get(at as usize..).unwrap_or(&[])
}

// What a write at an address would give, where each cell of the slice has this mark.
pub(crate) fn writable_in(bytes: &[u8], at: u64, mark: bool) -> Result<(), CellFault>
    ensures { result ≡ write_says (replicate (length (lent bytes.now)) mark) at }
{
    read_from(bytes, at)?;
    if mark { Ok(()) } else { Err(CellFault::Shut) }
}

// The first bytes of a slice, at most so many.
pub(crate) fn front(bytes: &[u8], most: usize) -> &[u8]
    ensures { result.now ≡ take most bytes.now }
{
    bytes.get(..most).unwrap_or(bytes)
}
