// A memory over a slice of the caller that is only read.
ghost use Rattle.std.specs.Prelude.{◌≡◌, false, [], length, take, drop, replicate};
ghost use Rattle.std.proofs.lemmas.List.{length-replicate};
ghost use Rattle.memory.specs.Slices.{lent};
ghost use Rattle.memory.specs.Laws.{lent_bounded};

use crate::cells::{CellFault, Memory};
use crate::slices::{read_from, size_of, stretch_of, writable_in};

// A slice of which no cell may be written. It is held whole and has no ghost field for its length: beside a `&mut`
// in a joined memory such a field would hide what the lender's slice holds.
#[derive(Drop)]
pub struct Fixed<'a> {
    bytes: &'a [u8],
}

impl<'a> Fixed<'a> {
    pub fn new(bytes: &'a [u8]) -> Fixed<'a>
        ensures cells { ⟦<Fixed<'a> as Memory>⟧.cells result ≡ lent bytes.now }
        ensures marks { ⟦<Fixed<'a> as Memory>⟧.marks result ≡ replicate (length (lent bytes.now)) false }
        ensures loans { ⟦<Fixed<'a> as Memory>⟧.loans result ≡ ([], []) }
    {
        Fixed { bytes }
    }
}

impl<'a> Memory for Fixed<'a> {
    ghost cells = { λ m. lent m.bytes.now };

    ghost marks = { λ m. replicate (length (lent m.bytes.now)) false };

    ghost loans = { λ _. ([], []) };

    ghost bounded = { λ m. lent_bounded m.bytes.now };

    ghost marked = { λ m. length-replicate (length (lent m.bytes.now)) false };

    fn size(&self) -> usize {
        size_of(self.bytes)
    }

    fn read(&self, at: u64) -> Result<u8, CellFault> {
        read_from(self.bytes, at)
    }

    fn stretch(&self, at: u64) -> &[u8]
        ensures front { result.now ≡ take (length result.now) (drop at (lent self.now.bytes.now)) }
        ensures all { result.now ≡ drop at (lent self.now.bytes.now) }
    {
        stretch_of(self.bytes, at)
    }

    fn writable(&self, at: u64) -> Result<(), CellFault> {
        writable_in(self.bytes, at, false)
    }

    fn write(&mut self, at: u64, _byte: u8) -> Result<(), CellFault> {
        self.writable(at)
    }
}
