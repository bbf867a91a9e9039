// Numbers put into several cells.
ghost use Rattle.std.specs.Prelude.{◌≡◌, ◌+◌, ◌≤◌, true, length};
ghost use Rattle.arith.specs.Widths.{bytes_of};
ghost use Rattle.memory.specs.Slices.{Kept};
ghost use Rattle.access.specs.Transfers.{all_open, storable, over, after_store, store_says};
ghost use Rattle.access.specs.Stores.{Stores};

use crate::align::check_aligned;
use crate::fault::{Access, AccessFault, Cause};
use arith::width::Width;
use memory::cells::{CellFault, Memory};

// Stores the low bytes of a value into the cells from an address on, all or none. What is kept is said of before and
// after, here and below, which no type can carry.
pub fn store<M: Memory>(
    memory: &mut M,
    at: u64,
    width: Width,
    value: u64,
) -> Result<(), AccessFault>
    ensures answer { result ≡ store_says (M.marks memory.old) at width }
    ensures after { M.cells memory.new ≡ after_store (M.marks memory.old) (M.cells memory.old) at (bytes_of width) value }
    ensures kept { Kept M.marks M.loans memory.old memory.new }
    ensures laws { Stores (M.marks memory.old) (M.cells memory.old) (M.cells memory.new) at width value result }
{
    by_width(memory, at, width, value).map_err(|cause| cause.met_by(Access::Store, at, width))
}

// Each width is written out, and what it calls is always inlined, so that the loops over the cells are unrolled: with a
// width that is known when it runs only, a store by itself takes up to six times as long.
fn by_width<M: Memory>(memory: &mut M, at: u64, width: Width, value: u64) -> Result<(), Cause>
    ensures answer { result ≡ storable (M.marks memory.old) at (bytes_of width) }
    ensures after { M.cells memory.new ≡ after_store (M.marks memory.old) (M.cells memory.old) at (bytes_of width) value }
    ensures kept { Kept M.marks M.loans memory.old memory.new }
{
    match width {
        Width::Byte => all_or_none(memory, at, Width::Byte, value),
        Width::Word => all_or_none(memory, at, Width::Word, value),
        Width::Long => all_or_none(memory, at, Width::Long, value),
        Width::Quad => all_or_none(memory, at, Width::Quad, value),
    }
}

#[inline(always)]
fn all_or_none<M: Memory>(memory: &mut M, at: u64, width: Width, value: u64) -> Result<(), Cause>
    ensures answer { result ≡ storable (M.marks memory.old) at (bytes_of width) }
    ensures after { M.cells memory.new ≡ after_store (M.marks memory.old) (M.cells memory.old) at (bytes_of width) value }
    ensures kept { Kept M.marks M.loans memory.old memory.new }
{
    ask(memory, at, width)?;
    put(memory, at, width, value);
    Ok(())
}

// What a store would give. Outside is told before shut, so the last cell is looked for first. Always inlined, as `put`
// is.
#[inline(always)]
fn ask<M: Memory>(memory: &M, at: u64, width: Width) -> Result<(), Cause>
    ensures { result ≡ storable (M.marks memory.now) at (bytes_of width) }
{
    check_aligned(at, width)?;
    let last = at + u64::from(width.bytes() - 1);
    if last >= memory.size() as u64 {
        return Err(Cause::Cell(CellFault::Outside));
    }
    for k in 0..width.bytes() {
        memory.writable(at + u64::from(k))?;
    }
    Ok(())
}

// Puts the low bytes of a value into cells that may be written, the lowest into the last.
#[inline(always)]
fn put<M: Memory>(memory: &mut M, at: u64, width: Width, value: u64)
    requires room { at + bytes_of width ≤ length (M.marks memory.old) }
    requires open { all_open (M.marks memory.old) at (bytes_of width) ≡ true }
    ensures after { M.cells memory.new ≡ over (M.cells memory.old) at (bytes_of width) value }
    ensures kept { Kept M.marks M.loans memory.old memory.new }
{
    let mut rest = value;
    for k in (0..width.bytes()).rev() {
        let _ = memory.write(at + u64::from(k), (rest % 256) as u8);
        rest /= 256;
    }
}
