// What an instruction's operands stand for.
ghost use Rattle.std.specs.Prelude.{◌≡◌, pos, ◌+ℤ◌, ◌*ℤ◌};
ghost use Rattle.arith.specs.Whole.{u, word};
ghost use Rattle.isa.specs.Distances.{words_of};
ghost use Rattle.machine.specs.Effects.{operand, signed_operand, taken, address_in};

use crate::bank::Bank;
use arith::flags::Flags;
use arith::signs::word_of;
use isa::distance::Distance;
use isa::instruction::{Address, Operand};
use isa::opcode::Condition;

pub(crate) fn value_of(bank: &Bank, source: Operand) -> u64
    ensures { result ≡ operand bank.now.regs source }
{
    match source {
        Operand::Register(register) => bank.read(register),
        Operand::Immediate(x) => u64::from(x),
    }
}

// The field is widened by its sign. A function for both would be told at each call how to widen, and all calls but one
// say the same.
pub(crate) fn signed_value_of(bank: &Bank, source: Operand) -> u64
    ensures { result ≡ signed_operand bank.now.regs source }
{
    match source {
        Operand::Register(register) => bank.read(register),
        Operand::Immediate(x) => word_of(x.cast_signed()),
    }
}

// Whether a jump is taken.
pub(crate) fn is_taken(when: Condition, flags: Flags) -> bool
    ensures { result ≡ taken when flags }
{
    match when {
        Condition::Always => true,
        Condition::Zero => flags.zero,
        Condition::NotZero => !flags.zero,
        Condition::Less => flags.sign != flags.overflow,
        Condition::NotLess => flags.sign == flags.overflow,
        Condition::NotGreater => flags.zero || flags.sign != flags.overflow,
        Condition::Greater => !flags.zero && flags.sign == flags.overflow,
        Condition::Carry => flags.carry,
        Condition::NoCarry => !flags.carry,
        Condition::NotAbove => flags.carry || flags.zero,
        Condition::Above => !flags.carry && !flags.zero,
    }
}

// Where a relative jump goes.
pub(crate) fn target_of(place: u64, distance: Distance) -> u64
    ensures { result ≡ word (u place +ℤ words_of distance *ℤ pos 4) }
{
    place.wrapping_add(word_of(distance.bytes()))
}

// The address of a load or a store.
pub(crate) fn address_of(bank: &Bank, address: Address) -> u64
    ensures { result ≡ address_in bank.now.regs address }
{
    match address {
        Address::Scaled { base, index, scale } => {
            let scaled = bank.read(index).wrapping_mul(u64::from(scale.factor()));
            bank.read(base).wrapping_add(scaled)
        }
        Address::Displaced { displacement, base } => {
            word_of(displacement).wrapping_add(bank.read(base))
        }
    }
}
