// Jobs: one execution of a rule, run in pieces.
#![tactic(auto)]

ghost use Rattle.std.specs.Prelude.{◌≡◌, replicate};
ghost use Rattle.job.specs.declared.Refusal.{Refusal};
ghost use Rattle.job.specs.Jobs.{first_job, stop_of, paused_at, ended_at, RunSo};
ghost use Rattle.machine.specs.Parts.{parts, parts_of, KeepsParts};

use arith::flags::Flags;
use console::Console;
use machine::attempt::Tried;
use machine::bank::Bank;
use machine::ending::Ending;
use machine::parts::Machine;
use memory::cells::Memory;

// Why a call on a job is refused: by the limits of a run, or by the console.
#[derive(Clone, Copy, PartialEq, Eq, Debug)]
pub enum Refusal {
    TooManySteps,
    Console(console::Refusal),
}

// Why a job is paused: its budget is done, nothing is there to be read yet, or no space is left for output.
#[derive(Clone, Copy, PartialEq, Eq, Debug)]
pub enum Reason {
    Spent,
    Waiting,
    Full,
}

// Why a run stopped. The three reasons stand beside the ending, since each rule on why a run stops tells all four
// apart.
#[derive(Clone, Copy, PartialEq, Eq, Debug)]
pub enum Stop {
    Spent,
    Waiting,
    Full,
    Finished(Ending),
}

// The numbers of a job.
#[derive(Clone, Copy, Default, PartialEq, Eq, Debug)]
pub struct Numbers {
    pub place: u64,
    pub flags: Flags,
    // the steps made so far
    pub count: u64,
}

// A job that can go on. It is neither copied nor let go: a run uses it up.
pub struct Paused {
    at: Numbers,
}

// A job that has ended.
pub struct Ended {
    last: Numbers,
    ending: Ending,
}

// A job after a run.
pub enum Outcome {
    Paused(Paused, Reason),
    Ended(Ended),
}

// What an accepted run answers.
pub struct Ran {
    pub steps: u64,
    pub outcome: Outcome,
}

// A refused run hands its job back.
pub struct Refused {
    pub refusal: Refusal,
    pub job: Paused,
}

// The most steps of one run.
pub const MOST_BUDGET: u64 = 1_000_000_000;

// The most steps of a job.
pub const MOST_COUNT: u64 = 1_000_000_000_000;

impl From<console::Refusal> for Refusal {
    ghost from_gives = { λ said r. r ≡ Refusal.Console said };

    fn from(said: console::Refusal) -> Refusal {
        Refusal::Console(said)
    }
}

impl From<Reason> for Stop {
    ghost from_gives = { λ reason r. r ≡ stop_of reason };

    fn from(reason: Reason) -> Stop {
        match reason {
            Reason::Spent => Stop::Spent,
            Reason::Waiting => Stop::Waiting,
            Reason::Full => Stop::Full,
        }
    }
}

impl Numbers {
    fn paused(self, reason: Reason) -> Outcome
        ensures { result ≡ paused_at self reason }
    {
        Outcome::Paused(Paused { at: self }, reason)
    }

    fn ended(self, ending: Ending) -> Outcome
        ensures { result ≡ ended_at self ending }
    {
        Outcome::Ended(Ended { last: self, ending })
    }
}

impl Ended {
    pub fn ending(&self) -> Ending
        ensures { result ≡ self.now.ending }
    {
        self.ending
    }

    pub fn numbers(&self) -> Numbers
        ensures { result ≡ self.now.last }
    {
        self.last
    }

    // Gives the job up.
    pub fn give_up(self) -> (Numbers, Ending)
        ensures numbers { result.0 ≡ self.last }
        ensures ending { result.1 ≡ self.ending }
    {
        let Ended { last, ending } = self;
        (last, ending)
    }
}

impl Paused {
    // A new job. It begins with a cleared bank.
    pub fn new(bank: &mut Bank) -> Self
        ensures job { result ≡ first_job }
        ensures cleared { bank.new.regs ≡ replicate 256 0 }
    {
        bank.clear();
        Paused {
            at: Numbers::default(),
        }
    }

    pub fn numbers(&self) -> Numbers
        ensures { result ≡ self.now.at }
    {
        self.at
    }

    // Gives the job up.
    pub fn give_up(self) -> Numbers
        ensures { result ≡ self.at }
    {
        let Paused { at } = self;
        at
    }

    // Runs the job for at most as many steps as the budget.
    pub fn run<M: Memory, C: Console>(
        self,
        machine: &mut Machine<'_, '_, '_, M, C>,
        budget: u64,
    ) -> Result<Ran, Refused>
        ensures kept { KeepsParts M.marks M.loans machine.old machine.new }
        ensures ran { RunSo self (parts M.marks M.loans M.cells C.view machine.old) budget (parts M.marks M.loans M.cells C.view machine.new) result }
    {
        if budget > MOST_BUDGET || self.at.count > MOST_COUNT - budget {
            return Err(Refused {
                refusal: Refusal::TooManySteps,
                job: self,
            });
        }
        let Paused { mut at } = self;
        let mut steps = 0;
        // The outcome is the loop's own value. A `for` over the steps has none, and each of the five ways out would be a
        // `return` of its own.
        let outcome = loop {
            if steps >= budget {
                break at.paused(Reason::Spent);
            }
            match machine.attempt(at.place, at.flags) {
                Ok(Tried::Went(place, flags)) => {
                    at = Numbers {
                        place,
                        flags,
                        count: at.count + 1,
                    };
                    steps += 1;
                }
                Ok(Tried::Halts(code)) => {
                    at.count += 1;
                    steps += 1;
                    break at.ended(Ending::Halt(code));
                }
                Ok(Tried::Traps(x, y, z)) => {
                    at.count += 1;
                    steps += 1;
                    break at.ended(Ending::Trap(x, y, z));
                }
                Ok(Tried::Waits) => break at.paused(Reason::Waiting),
                Ok(Tried::Full) => break at.paused(Reason::Full),
                Err(fault) => break at.ended(Ending::Fault(fault)),
            }
        };
        Ok(Ran { steps, outcome })
    }

    // The same on parts that are lent by themselves, for the callers that `attempt` of `machine` is for.
    pub fn run_on<M: Memory, C: Console>(
        self,
        bank: &mut Bank,
        memory: &mut M,
        console: &mut C,
        budget: u64,
    ) -> Result<Ran, Refused>
        ensures marks { M.marks memory.new ≡ M.marks memory.old }
        ensures loans { M.loans memory.new ≡ M.loans memory.old }
        ensures ran { RunSo self
            (parts_of (M.marks memory.old) (M.loans memory.old) bank.old.regs (M.cells memory.old) (C.view console.old))
            budget
            (parts_of (M.marks memory.new) (M.loans memory.new) bank.new.regs (M.cells memory.new) (C.view console.new))
            result }
    {
        let mut machine = Machine {
            bank,
            memory,
            console,
        };
        self.run(&mut machine, budget)
    }
}
