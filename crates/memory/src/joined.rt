// Two memories as one.
ghost use Rattle.std.specs.Prelude.{◌≡◌};
ghost use Rattle.memory.specs.Cells.{join};
ghost use Rattle.memory.specs.Slices.{joined_loans};
ghost use Rattle.memory.specs.Laws.{join_bounded, join_marked};

use crate::cells::{CellFault, MOST_CELLS, Memory};
use crate::joined::side::{Side, locate};
use crate::slices::front;

mod side;

// The cells of the first memory, then those of the second, cut after the most that a memory has.
#[derive(Drop)]
pub struct Joined<F, S> {
    first: F,
    second: S,
}

impl<F: Memory, S: Memory> Joined<F, S> {
    pub fn new(first: F, second: S) -> Joined<F, S>
        ensures first { result.first ≡ first }
        ensures second { result.second ≡ second }
        ensures cells { ⟦<Joined<F, S> as Memory>⟧.cells result ≡ join (F.cells first) (S.cells second) }
        ensures marks { ⟦<Joined<F, S> as Memory>⟧.marks result ≡ join (F.marks first) (S.marks second) }
        ensures loans { ⟦<Joined<F, S> as Memory>⟧.loans result ≡ joined_loans (F.cells first) (S.cells second) (F.loans first) (S.loans second) }
    {
        Self { first, second }
    }

    // The two memories again.
    pub fn parts(self) -> (F, S)
        ensures first { result.0 ≡ self.first }
        ensures second { result.1 ≡ self.second }
    {
        let Joined { first, second } = self;
        (first, second)
    }
}

// Each method asks the side that has the cell. The match stands in each, since the types of the sides differ, and the
// calls too.
impl<F: Memory, S: Memory> Memory for Joined<F, S> {
    ghost cells = { λ m. join (F.cells m.first) (S.cells m.second) };

    ghost marks = { λ m. join (F.marks m.first) (S.marks m.second) };

    ghost loans = { λ m. joined_loans (F.cells m.first) (S.cells m.second) (F.loans m.first) (S.loans m.second) };

    ghost bounded = { λ m. join_bounded (F.cells m.first) (S.cells m.second) };

    ghost marked = { λ m. join_marked (F.marks m.first) (F.cells m.first) (S.marks m.second) (S.cells m.second) (F.marked m.first) (S.marked m.second) };

    fn size(&self) -> usize {
        let whole = self.first.size() + self.second.size();
        whole.min(MOST_CELLS)
    }

    fn read(&self, at: u64) -> Result<u8, CellFault> {
        match locate(self.first.size(), at)? {
            Side::First => self.first.read(at),
            Side::Second(place) => self.second.read(place),
        }
    }

    fn stretch(&self, at: u64) -> &[u8] {
        match locate(self.first.size(), at) {
            Ok(Side::First) => self.first.stretch(at),
            Ok(Side::Second(place)) => front(self.second.stretch(place), MOST_CELLS - at as usize),
            Err(_) => &[],
        }
    }

    fn writable(&self, at: u64) -> Result<(), CellFault> {
        match locate(self.first.size(), at)? {
            Side::First => self.first.writable(at),
            Side::Second(place) => self.second.writable(place),
        }
    }

    fn write(&mut self, at: u64, byte: u8) -> Result<(), CellFault> {
        match locate(self.first.size(), at)? {
            Side::First => self.first.write(at, byte),
            Side::Second(place) => self.second.write(place, byte),
        }
    }
}
