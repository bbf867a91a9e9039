// Two jobs on two machines of any kinds, and that they are alike.
#![tactic(auto)]

ghost use Rattle.calls.specs.Calls.{asks_of};
ghost use Rattle.calls.specs.Posts.{scene, scene_on, PerformSo};
ghost use Rattle.machine.specs.Parts.{KeepsParts};
ghost use Rattle.twin.specs.Twins.{TwinsIf};

use calls::{Call, Performed, perform};
use console::Console;
use machine::bank::Bank;
use machine::parts::Machine;
use memory::cells::Memory;
use std::alloc::{AllocError, Global};

// Makes a list of calls on each of two jobs. Each is what it is alone; and if they start alike, they are alike.
pub fn both<M: Memory, C: Console, N: Memory, D: Console>(
    heap: Global,
    machine: &mut Machine<'_, '_, '_, M, C>,
    calls: &[Call<'_>],
    taken: &mut [u8],
    other: &mut Machine<'_, '_, '_, N, D>,
    others: &[Call<'_>],
    gone: &mut [u8],
) -> (Result<Performed, AllocError>, Result<Performed, AllocError>)
    ensures kept { KeepsParts M.marks M.loans machine.old machine.new }
    ensures other_kept { KeepsParts N.marks N.loans other.old other.new }
    ensures first { PerformSo
        (scene_on M.marks M.loans M.cells C.view machine.old taken.old)
        (asks_of calls.now)
        (scene_on M.marks M.loans M.cells C.view machine.new taken.new)
        result.0 }
    ensures second { PerformSo
        (scene_on N.marks N.loans N.cells D.view other.old gone.old)
        (asks_of others.now)
        (scene_on N.marks N.loans N.cells D.view other.new gone.new)
        result.1 }
    ensures alike { TwinsIf
        (scene_on M.marks M.loans M.cells C.view machine.old taken.old)
        (scene_on M.marks M.loans M.cells C.view machine.new taken.new)
        (asks_of calls.now)
        (scene_on N.marks N.loans N.cells D.view other.old gone.old)
        (scene_on N.marks N.loans N.cells D.view other.new gone.new)
        (asks_of others.now)
        result.0 result.1 }
{
    let first = perform(heap, machine, calls, taken);
    let second = perform(heap, other, others, gone);
    (first, second)
}

// The same on parts that are lent by themselves, for the callers that `attempt` of `machine` is for.
pub fn both_on<M: Memory, C: Console, N: Memory, D: Console>(
    heap: Global,
    bank: &mut Bank,
    memory: &mut M,
    console: &mut C,
    calls: &[Call<'_>],
    taken: &mut [u8],
    other_bank: &mut Bank,
    other_memory: &mut N,
    other_console: &mut D,
    others: &[Call<'_>],
    gone: &mut [u8],
) -> (Result<Performed, AllocError>, Result<Performed, AllocError>)
    ensures first { PerformSo
        (scene (M.marks memory.old) (M.loans memory.old) (M.cells memory.old) (C.view console.old) bank.old.regs taken.old)
        (asks_of calls.now)
        (scene (M.marks memory.new) (M.loans memory.new) (M.cells memory.new) (C.view console.new) bank.new.regs taken.new)
        result.0 }
    ensures second { PerformSo
        (scene (N.marks other_memory.old) (N.loans other_memory.old) (N.cells other_memory.old) (D.view other_console.old) other_bank.old.regs gone.old)
        (asks_of others.now)
        (scene (N.marks other_memory.new) (N.loans other_memory.new) (N.cells other_memory.new) (D.view other_console.new) other_bank.new.regs gone.new)
        result.1 }
    ensures alike { TwinsIf
        (scene (M.marks memory.old) (M.loans memory.old) (M.cells memory.old) (C.view console.old) bank.old.regs taken.old)
        (scene (M.marks memory.new) (M.loans memory.new) (M.cells memory.new) (C.view console.new) bank.new.regs taken.new)
        (asks_of calls.now)
        (scene (N.marks other_memory.old) (N.loans other_memory.old) (N.cells other_memory.old) (D.view other_console.old) other_bank.old.regs gone.old)
        (scene (N.marks other_memory.new) (N.loans other_memory.new) (N.cells other_memory.new) (D.view other_console.new) other_bank.new.regs gone.new)
        (asks_of others.now)
        result.0 result.1 }
{
    let mut machine = Machine {
        bank,
        memory,
        console,
    };
    let mut second = Machine {
        bank: other_bank,
        memory: other_memory,
        console: other_console,
    };
    both(heap, &mut machine, calls, taken, &mut second, others, gone)
}
