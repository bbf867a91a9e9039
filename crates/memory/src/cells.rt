// What every memory is and does.
ghost use Rattle.std.specs.Prelude.{◌≡◌, ℕ, ◌≤◌, Bool, List, length, take, drop};
ghost use Rattle.memory.specs.Cells.{read_at, write_says, after_write};
ghost use Rattle.memory.specs.Slices.{Loans, Kept};

// What a memory says of a cell that it does not read or write.
#[derive(Clone, Copy, PartialEq, Eq, Debug)]
pub enum CellFault {
    // there is no such cell
    Outside,
    // the cell may not be written
    Shut,
}

// The most cells that a memory has.
pub const MOST_CELLS: usize = 65536;

// A list of byte cells, and as many marks that never change.
pub trait Memory {
    // the byte in each cell
    ghost cells: { Self → List ℕ };

    // of each cell, whether it may be written
    ghost marks: { Self → List Bool };

    // what tells a lender, beside the cells, what its slices hold
    ghost loans: { Self → Loans };

    // a memory has at most 65536 cells
    ghost bounded: { (m : Self) → length (cells m) ≤ 65536 };

    // and a mark for each
    ghost marked: { (m : Self) → length (marks m) ≡ length (cells m) };

    // How many cells there are.
    fn size(&self) -> usize
        ensures { result ≡ length (cells self.now) };

    // The byte in the cell at an address.
    fn read(&self, at: u64) -> Result<u8, CellFault>
        ensures { result ≡ read_at (cells self.now) at };

    // Cells that lie side by side from an address on, for whoever reads several at once: as many as the memory has at
    // hand, maybe none.
    fn stretch(&self, at: u64) -> &[u8]
        ensures { result.now ≡ take (length result.now) (drop at (cells self.now)) }
    {
        &[]
    }

    // What a write at an address would give.
    fn writable(&self, at: u64) -> Result<(), CellFault>
        ensures { result ≡ write_says (marks self.now) at };

    // Sets the cell at an address if it is marked, and nothing else. What is kept is said of before and after, which no
    // type can carry.
    fn write(&mut self, at: u64, byte: u8) -> Result<(), CellFault>
        ensures answer { result ≡ write_says (marks self.old) at }
        ensures after { cells self.new ≡ after_write (marks self.old) (cells self.old) at byte }
        ensures kept { Kept marks loans self.old self.new };
}
