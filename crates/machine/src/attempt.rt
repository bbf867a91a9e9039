// One try of an instruction.
ghost use Rattle.std.specs.Prelude.{◌≡◌};
ghost use Rattle.isa.specs.Words.{decoded};
ghost use Rattle.machine.specs.Parts.{parts, KeepsParts};
ghost use Rattle.access.specs.Transfers.{fetched};
ghost use Rattle.machine.specs.Steps.{living, next};
ghost use Rattle.machine.specs.Cores.{core_of};
ghost use Rattle.machine.specs.Tries.{bytes_in, word_at, legal};
ghost use Rattle.machine.specs.Tryings.{Attempted, Tells};

use crate::bank::Bank;
use crate::execute::Site;
use crate::fault::{Cause, Fault};
use crate::parts::Machine;
use access::load::fetch;
use arith::flags::Flags;
use console::Console;
use isa::instruction::Instruction;
use isa::word::decode;
use memory::cells::Memory;

// How a try comes out that is no fault: the place and the flags that it goes on with, how it ends the job, or why
// nothing has changed.
#[derive(Clone, Copy, PartialEq, Eq, Debug)]
pub enum Tried {
    Went(u64, Flags),
    Halts(u8),
    Traps(u8, u8, u8),
    // a getc with no byte at an open input
    Waits,
    // a putc with no room
    Full,
}

// The word at a place. A fault there has none, and is told with 0 for it.
fn word_at<M: Memory>(memory: &M, place: u64) -> Result<u32, Fault>
    ensures { result ≡ word_at place (fetched (M.cells memory.now) place) }
{
    fetch(memory, place).map_err(|fault| Cause::Access(fault).met_at(place, 0))
}

// The instruction that a word stands for, if it is legal.
fn instruction_of(place: u64, word: u32) -> Result<Instruction, Fault>
    ensures { result ≡ legal place word (decoded (bytes_in word)) }
{
    decode(word.to_be_bytes()).ok_or(Cause::Illegal.met_at(place, word))
}

impl<M: Memory, C: Console> Machine<'_, '_, '_, M, C> {
    // Tries the instruction at a place. A fault changes nothing.
    pub fn attempt(&mut self, place: u64, flags: Flags) -> Result<Tried, Fault>
        ensures kept { KeepsParts M.marks M.loans self.old self.new }
        ensures tried { Attempted (parts M.marks M.loans M.cells C.view self.old) place flags (parts M.marks M.loans M.cells C.view self.new) result }
    {
        let word = word_at(self.memory, place)?;
        let instruction = instruction_of(place, word)?;
        self.execute(Site { place, word, flags }, instruction)
    }
}

// The same try on a bank, a memory and a console that are lent by themselves. For whoever joins slices that it is lent, or
// makes a page or a tray of them: the checker does not cover a function that makes a `Machine` over such parts.
pub fn attempt<M: Memory, C: Console>(
    bank: &mut Bank,
    memory: &mut M,
    console: &mut C,
    place: u64,
    flags: Flags,
) -> Result<Tried, Fault>
    ensures marks { M.marks memory.new ≡ M.marks memory.old }
    ensures loans { M.loans memory.new ≡ M.loans memory.old }
    ensures tried { Tells
        (next (M.marks memory.old) (living (core_of bank.old.regs flags place (M.cells memory.old)) (C.view console.old)))
        (living (core_of bank.old.regs flags place (M.cells memory.old)) (C.view console.old))
        bank.new.regs (M.cells memory.new) (C.view console.new) result }
{
    let mut machine = Machine {
        bank,
        memory,
        console,
    };
    machine.attempt(place, flags)
}
