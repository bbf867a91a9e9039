// Arithmetic on registers: each gives the flags after it, or why it is a fault.
ghost use Rattle.std.specs.Prelude.{◌≡◌};
ghost use Rattle.arith.specs.Whole.{divided, divided_signed};
ghost use Rattle.machine.specs.Effects.{gives, divides, divides_signed, binary};
ghost use Rattle.machine.specs.Leavings.{split};
ghost use Rattle.machine.specs.Registers.{reg};

use crate::bank::Bank;
use crate::fault::Cause;
use crate::operands::{signed_value_of, value_of};
use arith::bits::{shift_left, shift_right, shift_right_signed};
use arith::flags::Flags;
use arith::products::{divide, divide_signed, multiply};
use arith::sums::{add, subtract};
use isa::instruction::Operand;
use isa::opcode::Operation;

// Sets a register.
fn give(bank: &mut Bank, to: u8, value: u64, flags: Flags) -> Result<Flags, Cause>
    ensures { (bank.new.regs, result) ≡ split bank.old.regs (gives bank.old.regs to value flags) }
{
    bank.write(to, value);
    Ok(flags)
}

// Divides the register b without a sign: quotient, 0 and remainder go to three registers.
fn divide_into(bank: &mut Bank, flags: Flags, a: u64, b: u8, to: u8) -> Result<Flags, Cause>
    ensures { (bank.new.regs, result) ≡ split bank.old.regs (divides bank.old.regs flags b to (divided (reg bank.old.regs b) a)) }
{
    let (quotient, remainder) = divide(bank.read(b), a).ok_or(Cause::DivisorZero)?;
    if bank.read(b.wrapping_add(1)) != 0 {
        return Err(Cause::HighNotZero);
    }
    bank.write(to, quotient);
    bank.write(to.wrapping_add(1), 0);
    bank.write(to.wrapping_add(2), remainder);
    Ok(flags)
}

// Divides the register b with a sign: quotient and remainder go to two registers.
fn divide_signed_into(bank: &mut Bank, flags: Flags, a: u64, b: u8, to: u8) -> Result<Flags, Cause>
    ensures { (bank.new.regs, result) ≡ split bank.old.regs (divides_signed bank.old.regs flags to (divided_signed (reg bank.old.regs b) a)) }
{
    let (quotient, remainder) = divide_signed(bank.read(b), a).ok_or(Cause::DivisorZero)?;
    bank.write(to, quotient);
    bank.write(to.wrapping_add(1), remainder);
    Ok(flags)
}

// Does an operation. Which one is told by the instruction, so it is found by a match. It and the functions above give
// the flags after them, as the rules do, and so take those before them beside the bank.
pub(crate) fn compute(
    bank: &mut Bank,
    flags: Flags,
    operation: Operation,
    a: Operand,
    b: u8,
    to: u8,
) -> Result<Flags, Cause>
    ensures { (bank.new.regs, result) ≡ split bank.old.regs (binary operation bank.old.regs flags a b to) }
{
    let first = bank.read(b);
    let second = value_of(bank, a);
    match operation {
        Operation::Add => {
            let (value, flags) = add(first, second);
            give(bank, to, value, flags)
        }
        Operation::Subtract => {
            let (value, flags) = subtract(first, second);
            give(bank, to, value, flags)
        }
        Operation::Multiply => {
            let value = multiply(first, signed_value_of(bank, a));
            give(bank, to, value, flags)
        }
        Operation::Divide => divide_into(bank, flags, second, b, to),
        Operation::DivideSigned => divide_signed_into(bank, flags, second, b, to),
        Operation::ShiftLeft => give(bank, to, shift_left(first, second), flags),
        Operation::ShiftRight => give(bank, to, shift_right(first, second), flags),
        Operation::ShiftRightSigned => { give(bank, to, shift_right_signed(first, second), flags) }
    }
}
