// Lists of calls on one job.
#![tactic(auto)]

ghost use Rattle.std.specs.Prelude.{◌≡◌, ◌≤◌, length};
ghost use Rattle.console.specs.Refusals.{numbered};
ghost use Rattle.calls.specs.Calls.{ask_of, asks_of, replied, reply_of};
ghost use Rattle.calls.specs.Posts.{scene, scene_on, numbers_of, ending_of, RanOn, TookSo, MadeSo, PerformSo};
ghost use Rattle.machine.specs.Parts.{parts, KeepsParts};

use console::Console;
use job::{Ended, Numbers, Outcome, Paused, Ran, Refusal, Refused, Stop};
use machine::bank::Bank;
use machine::ending::Ending;
use machine::parts::Machine;
use memory::cells::Memory;
use std::alloc::{AllocError, Global};

// A call on a job or its console.
#[derive(Clone, Copy, PartialEq, Eq, Debug)]
pub enum Call<'a> {
    Feed(&'a [u8]),
    Close,
    // with a budget of steps
    Run(u64),
    // with the most bytes to be taken
    Take(usize),
}

// What a call answers.
#[derive(Clone, Copy, PartialEq, Eq, Debug)]
pub enum Answer {
    Fed,
    Closed,
    // the steps of the run, and why it stopped
    Ran(u64, Stop),
    // how many bytes
    Took(usize),
    Refused(Refusal),
    // a run after the ending: passed over
    Passed,
}

// A job as it is between two calls. The outcome of a run has a reason too, which a new job does not have.
pub enum Job {
    Paused(Paused),
    Ended(Ended),
}

impl Job {
    // Gives the job up: its numbers, and its ending if it has ended.
    pub fn give_up(self) -> (Numbers, Option<Ending>)
        ensures numbers { result.0 ≡ numbers_of self }
        ensures ending { result.1 ≡ ending_of self }
    {
        match self {
            Job::Paused(paused) => (paused.give_up(), None),
            Job::Ended(ended) => {
                let (numbers, ending) = ended.give_up();
                (numbers, Some(ending))
            }
        }
    }

    // Runs a paused job; passes over an ended one.
    fn run<M: Memory, C: Console>(
        self,
        machine: &mut Machine<'_, '_, '_, M, C>,
        budget: u64,
    ) -> (Job, Answer)
        ensures kept { KeepsParts M.marks M.loans machine.old machine.new }
        ensures ran { RanOn (parts M.marks M.loans M.cells C.view machine.old) budget self (parts M.marks M.loans M.cells C.view machine.new) result.0 result.1 }
    {
        let paused = match self {
            Job::Paused(paused) => paused,
            Job::Ended(ended) => return (Job::Ended(ended), Answer::Passed),
        };
        match paused.run(machine, budget) {
            Ok(Ran { steps, outcome }) => match outcome {
                Outcome::Paused(next, reason) => {
                    (Job::Paused(next), Answer::Ran(steps, Stop::from(reason)))
                }
                Outcome::Ended(ended) => {
                    let stop = Stop::Finished(ended.ending());
                    (Job::Ended(ended), Answer::Ran(steps, stop))
                }
            },
            Err(Refused { refusal, job }) => (Job::Paused(job), Answer::Refused(refusal)),
        }
    }
}

// What a list of calls leaves: the job, what each call answered, and how many bytes were taken.
pub struct Performed {
    pub job: Job,
    pub answers: Vec<Answer>,
    pub taken: usize,
}

fn told(answer: Answer, said: Result<(), console::Refusal>) -> Answer
    ensures { reply_of result ≡ replied (reply_of answer) (numbered said) }
{
    said.map_or_else(
        |refusal| Answer::Refused(Refusal::from(refusal)),
        |_| answer,
    )
}

// Where takes put their bytes: one lent buffer, by the rule on takes, so how much of it is filled stands beside it.
// That it is filled within the buffer is said at each call: a ghost field beside the `&mut` would hide from the lender
// what the buffer holds.
#[derive(Drop)]
struct Takings<'a> {
    buffer: &'a mut [u8],
    filled: usize,
}

impl Takings<'_> {
    // Takes bytes from a console, at most so many and as the rest of the buffer has room for, and answers how many.
    fn take<C: Console>(&mut self, console: &mut C, most: usize) -> usize
        requires { self.old.filled ≤ length self.old.buffer.now }
        ensures lent { self.new.buffer.ghost_name ≡ self.old.buffer.ghost_name }
        ensures taken { TookSo (C.view console.old) self.old.buffer.now self.old.filled most (C.view console.new) self.new.buffer.now self.new.filled result }
    {
        let room = most.min(self.buffer.len() - self.filled);
        let end = self.filled + room;
        let moved = console.take(&mut self.buffer[self.filled..end]);
        self.filled += moved;
        moved
    }
}

// Makes one call of a list. A call is a value, told to the caller by its answer, so it is no closure.
fn make<M: Memory, C: Console>(
    job: Job,
    machine: &mut Machine<'_, '_, '_, M, C>,
    call: &Call<'_>,
    takings: &mut Takings<'_>,
) -> (Job, Answer)
    requires { takings.old.filled ≤ length takings.old.buffer.now }
    ensures kept { KeepsParts M.marks M.loans machine.old machine.new }
    ensures lent { takings.new.buffer.ghost_name ≡ takings.old.buffer.ghost_name }
    ensures made { MadeSo (scene_on M.marks M.loans M.cells C.view machine.old takings.old.buffer.now) job takings.old.filled (ask_of call.now) (scene_on M.marks M.loans M.cells C.view machine.new takings.new.buffer.now) result.0 result.1 takings.new.filled }
{
    match call {
        Call::Feed(bytes) => (job, told(Answer::Fed, machine.console.feed(bytes))),
        Call::Close => (job, told(Answer::Closed, machine.console.close())),
        Call::Run(budget) => job.run(machine, *budget),
        Call::Take(most) => (job, Answer::Took(takings.take(machine.console, *most))),
    }
}

// Makes the calls one after the other on a new job.
// The answers get their room first, so that want of memory is told before anything changes.
pub fn perform<M: Memory, C: Console>(
    heap: Global,
    machine: &mut Machine<'_, '_, '_, M, C>,
    calls: &[Call<'_>],
    taken: &mut [u8],
) -> Result<Performed, AllocError>
    ensures kept { KeepsParts M.marks M.loans machine.old machine.new }
    ensures performed { PerformSo (scene_on M.marks M.loans M.cells C.view machine.old taken.old) (asks_of calls.now) (scene_on M.marks M.loans M.cells C.view machine.new taken.new) result }
{
    let mut answers = Vec::with_capacity(heap, calls.len())?;
    let mut job = Job::Paused(Paused::new(machine.bank));
    let mut takings = Takings {
        buffer: taken,
        filled: 0,
    };
    for call in calls {
        let (next, answer) = make(job, machine, call, &mut takings);
        job = next;
        let _ = answers.push(answer);
    }
    Ok(Performed {
        job,
        answers,
        taken: takings.filled,
    })
}

// The same on parts that are lent by themselves, for the callers that `attempt` of `machine` is for.
pub fn perform_on<M: Memory, C: Console>(
    heap: Global,
    bank: &mut Bank,
    memory: &mut M,
    console: &mut C,
    calls: &[Call<'_>],
    taken: &mut [u8],
) -> Result<Performed, AllocError>
    ensures { PerformSo
        (scene (M.marks memory.old) (M.loans memory.old) (M.cells memory.old) (C.view console.old) bank.old.regs taken.old)
        (asks_of calls.now)
        (scene (M.marks memory.new) (M.loans memory.new) (M.cells memory.new) (C.view console.new) bank.new.regs taken.new)
        result }
{
    let mut machine = Machine {
        bank,
        memory,
        console,
    };
    perform(heap, &mut machine, calls, taken)
}
