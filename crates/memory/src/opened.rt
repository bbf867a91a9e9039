// A memory over a slice of the caller that is lent to be written. The slice is the memory, with no struct round it:
// so a lender knows what its slice holds in the end, also where the slice lay in a joined memory.
ghost use Rattle.std.specs.Prelude.{◌≡◌, true, [], ◌∷◌, length, take, drop, replicate};
ghost use Rattle.std.proofs.lemmas.List.{length-replicate};
ghost use Rattle.memory.specs.Slices.{lent, left_out};
ghost use Rattle.memory.specs.Laws.{lent_bounded};

use crate::cells::{CellFault, Memory};
use crate::slices::{read_from, size_of, stretch_of, writable_in};

// The reads of a fixed slice and of this one stand once, in `slices`. Its marks, loans and writes are its own, so the
// impls are two.
impl<'a> Memory for &'a mut [u8] {
    ghost cells = { λ m. lent m.now };

    ghost marks = { λ m. replicate (length (lent m.now)) true };

    ghost loans = { λ m. (m.ghost_name ∷ [], left_out m.now) };

    ghost bounded = { λ m. lent_bounded m.now };

    ghost marked = { λ m. length-replicate (length (lent m.now)) true };

    fn size(&self) -> usize {
        size_of(self)
    }

    fn read(&self, at: u64) -> Result<u8, CellFault> {
        read_from(self, at)
    }

    fn stretch(&self, at: u64) -> &[u8]
        ensures front { result.now ≡ take (length result.now) (drop at (lent self.now.now)) }
        ensures all { result.now ≡ drop at (lent self.now.now) }
    {
        stretch_of(self, at)
    }

    fn writable(&self, at: u64) -> Result<(), CellFault> {
        writable_in(self, at, true)
    }

    fn write(&mut self, at: u64, byte: u8) -> Result<(), CellFault> {
        self.writable(at)?;
        // no `From` leads from u64 to usize
        self[at as usize] = byte;
        Ok(())
    }
}
