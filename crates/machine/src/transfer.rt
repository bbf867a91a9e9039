// Loads into and stores from registers: each gives the flags, which stay, or why it is a fault, as the rules do.
ghost use Rattle.std.specs.Prelude.{◌≡◌};
ghost use Rattle.arith.specs.Widths.{bytes_of};
ghost use Rattle.access.specs.Transfers.{loaded, store_says, after_store};
ghost use Rattle.isa.specs.Kinds.{width_of, extension_of};
ghost use Rattle.memory.specs.Slices.{Kept};
ghost use Rattle.machine.specs.Effects.{loads, address_in};
ghost use Rattle.machine.specs.Leavings.{split, lifted};
ghost use Rattle.machine.specs.Registers.{reg};

use crate::bank::Bank;
use crate::fault::Cause;
use crate::operands::address_of;
use access::load::load;
use access::store::store;
use arith::flags::Flags;
use arith::width::{Extension, Width};
use isa::instruction::Address;
use isa::opcode::Kind;
use memory::cells::Memory;

pub(crate) fn load_into<M: Memory>(
    bank: &mut Bank,
    memory: &M,
    flags: Flags,
    kind: Kind,
    address: Address,
    to: u8,
) -> Result<Flags, Cause>
    ensures { (bank.new.regs, result) ≡ split bank.old.regs (loads bank.old.regs flags to (loaded (M.cells memory.now) (address_in bank.old.regs address) (width_of kind) (extension_of kind))) }
{
    let at = address_of(bank, address);
    let value = load(memory, at, Width::from(kind), Extension::from(kind))?;
    bank.write(to, value);
    Ok(flags)
}

// What the memory keeps is said of before and after, which no type can carry.
pub(crate) fn store_from<M: Memory>(
    bank: &Bank,
    memory: &mut M,
    flags: Flags,
    size: Width,
    from: u8,
    address: Address,
) -> Result<Flags, Cause>
    ensures answer { result ≡ lifted flags (store_says (M.marks memory.old) (address_in bank.now.regs address) size) }
    ensures after { M.cells memory.new ≡ after_store (M.marks memory.old) (M.cells memory.old) (address_in bank.now.regs address) (bytes_of size) (reg bank.now.regs from) }
    ensures kept { Kept M.marks M.loans memory.old memory.new }
{
    store(memory, address_of(bank, address), size, bank.read(from))?;
    Ok(flags)
}
