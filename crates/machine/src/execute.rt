// One instruction.
ghost use Rattle.std.specs.Prelude.{◌≡◌, ◌%◌, pos, ◌+ℤ◌, ◌*ℤ◌, Ok, if◌then◌else◌};
ghost use Rattle.arith.specs.Whole.{u, word as word_for, sum};
ghost use Rattle.isa.specs.Distances.{words_of};
ghost use Rattle.machine.specs.declared.attempt.Tried.{Tried};
ghost use Rattle.machine.specs.Effects.{taken};
ghost use Rattle.machine.specs.Leavings.{Executed, settled, heard, put_tried};
ghost use Rattle.machine.specs.Parts.{parts, KeepsParts};
ghost use Rattle.machine.specs.Registers.{reg, with_reg};

use crate::attempt::Tried;
use crate::bank::Bank;
use crate::compute::compute;
use crate::fault::{Cause, Fault};
use crate::operands::{is_taken, target_of, value_of};
use crate::parts::Machine;
use crate::transfer::{load_into, store_from};
use arith::bits::{and, complement, or, shift_in};
use arith::flags::Flags;
use arith::signs::word_of;
use arith::sums::{add_triple, add_with};
use console::{Console, Full, ReadAnswer};
use isa::distance::Distance;
use isa::instruction::Instruction;
use isa::opcode::Condition;
use memory::cells::Memory;

// The instruction that is tried: its place, its word, and the flags before it.
#[derive(Clone, Copy, PartialEq, Eq, Debug)]
pub(crate) struct Site {
    pub(crate) place: u64,
    pub(crate) word: u32,
    pub(crate) flags: Flags,
}

impl Site {
    // On to the next word.
    fn next(self, flags: Flags) -> Tried
        ensures { result ≡ Tried.Went (sum self.place 4) flags }
    {
        Tried::Went(self.place.wrapping_add(4), flags)
    }

    // On to the next word, or a fault here.
    fn settle(self, outcome: Result<Flags, Cause>) -> Result<Tried, Fault>
        ensures { result ≡ settled self.place self.word outcome }
    {
        let flags = outcome.map_err(|cause| cause.met_at(self.place, self.word))?;
        Ok(self.next(flags))
    }

    // A register and the flags are set.
    fn set_both(self, res: (u64, Flags), to: u8, bank: &mut Bank) -> Tried
        ensures regs { bank.new.regs ≡ with_reg bank.old.regs to res.0 }
        ensures answer { result ≡ Tried.Went (sum self.place 4) res.1 }
    {
        let (value, flags) = res;
        bank.write(to, value);
        self.next(flags)
    }

    // A register is set.
    fn set(self, value: u64, to: u8, bank: &mut Bank) -> Tried
        ensures regs { bank.new.regs ≡ with_reg bank.old.regs to value }
        ensures answer { result ≡ Tried.Went (sum self.place 4) self.flags }
    {
        self.set_both((value, self.flags), to, bank)
    }

    fn jump(self, when: Condition, distance: Distance) -> Tried
        ensures { result ≡ Tried.Went (if taken when self.flags then word_for (u self.place +ℤ words_of distance *ℤ pos 4) else sum self.place 4) self.flags }
    {
        if is_taken(when, self.flags) {
            Tried::Went(target_of(self.place, distance), self.flags)
        } else {
            self.next(self.flags)
        }
    }

    // The target is read before the link is written: they may be the same register.
    fn jump_to(self, target: u8, link: u8, bank: &mut Bank) -> Tried
        ensures regs { bank.new.regs ≡ with_reg bank.old.regs link (sum self.place 4) }
        ensures answer { result ≡ Tried.Went (reg bank.old.regs target) self.flags }
    {
        let to = bank.read(target);
        bank.write(link, self.place.wrapping_add(4));
        Tried::Went(to, self.flags)
    }

    // What was read goes to a register, 255 at the end.
    fn hear(self, answer: ReadAnswer, to: u8, bank: &mut Bank) -> Tried
        ensures { (bank.new.regs, result) ≡ heard bank.old.regs self.place self.flags to answer }
    {
        match answer {
            ReadAnswer::Byte(byte) => self.set(u64::from(byte), to, bank),
            ReadAnswer::End => self.set(255, to, bank),
            ReadAnswer::NotYet => Tried::Waits,
        }
    }

    // On to the next word if a byte was put.
    fn after_put(self, answer: Result<(), Full>) -> Tried
        ensures { result ≡ put_tried self.place self.flags answer }
    {
        match answer {
            Ok(()) => self.next(self.flags),
            Err(Full) => Tried::Full,
        }
    }
}

fn low_byte(value: u64) -> u8
    ensures { result ≡ value % 256 }
{
    (value % 256) as u8
}

impl<M: Memory, C: Console> Machine<'_, '_, '_, M, C> {
    // Does an instruction. A fault changes nothing. An instruction is a value that the memory holds, so what it does is
    // found by a match, which sees that none is missed; closures would have to be made and handed out.
    pub(crate) fn execute(&mut self, at: Site, instruction: Instruction) -> Result<Tried, Fault>
        ensures kept { KeepsParts M.marks M.loans self.old self.new }
        ensures done { Executed (parts M.marks M.loans M.cells C.view self.old) at.place at.flags at.word instruction (parts M.marks M.loans M.cells C.view self.new) result }
    {
        let flags = at.flags;
        let bank = &mut *self.bank;
        Ok(match instruction {
            Instruction::Load { kind, address, to } => {
                at.settle(load_into(bank, self.memory, flags, kind, address, to))?
            }
            Instruction::Store {
                width,
                from,
                address,
            } => at.settle(store_from(bank, self.memory, flags, width, from, address))?,
            Instruction::Binary {
                operation,
                a,
                b,
                to,
            } => at.settle(compute(bank, flags, operation, a, b, to))?,
            Instruction::AddWithZero { a, b, to } => {
                at.set_both(add_with(bank.read(b), bank.read(a), flags.zero), to, bank)
            }
            Instruction::AddTriple { x, b, to } => at.set_both(
                add_triple(bank.read(b), x),
                to,
                bank,
            ),
            Instruction::Or { a, b, to } => at.set(or(bank.read(b), bank.read(a)), to, bank),
            Instruction::And { a, b, to } => at.set(and(bank.read(b), bank.read(a)), to, bank),
            Instruction::Not { from, to } => at.set(complement(bank.read(from)), to, bank),
            Instruction::LoadUnsigned { value, to } => at.set(word_of(value), to, bank),
            Instruction::LoadSigned { value, to } => at.set(word_of(value), to, bank),
            Instruction::ShiftIn { value, to } => at.set(shift_in(bank.read(to), value), to, bank),
            Instruction::Jump {
                condition,
                distance,
            } => at.jump(condition, distance),
            Instruction::JumpRegister { target, link } => at.jump_to(target, link, bank),
            Instruction::Halt { code } => Tried::Halts(low_byte(value_of(bank, code))),
            Instruction::Trap { x, y, z } => Tried::Traps(x, y, z),
            Instruction::Get { to } => at.hear(self.console.read(), to, bank),
            Instruction::Put { from } => at.after_put(
                self.console.put(low_byte(value_of(bank, from))),
            ),
            Instruction::Nothing => at.next(flags),
        })
    }
}
