// Why an instruction is not done.
ghost use Rattle.std.specs.Prelude.{◌≡◌};
ghost use Rattle.machine.specs.Faults.{fault_at, number};
ghost use Rattle.machine.specs.declared.fault.Cause.{Cause};

use access::fault::AccessFault;

#[derive(Clone, Copy, PartialEq, Eq, Debug)]
pub enum Cause {
    // what is wrong with a fetch, a load or a store
    Access(AccessFault),
    // the word is not legal
    Illegal,
    DivisorZero,
    // divq: the register after the dividend's is not 0
    HighNotZero,
}

// By hand, since contracts say what `?` makes of an access's fault.
impl From<AccessFault> for Cause {
    ghost from_gives = { λ access r. r ≡ Cause.Access access };

    fn from(access: AccessFault) -> Cause {
        Cause::Access(access)
    }
}

// A cause with the place of the instruction and its word. Where none was fetched the word is 0, no Option, by the rule
// for faults.
#[derive(Clone, Copy, PartialEq, Eq, Debug)]
pub struct Fault {
    pub cause: Cause,
    pub place: u64,
    pub word: u32,
}

impl Cause {
    // The fault of an instruction that met it.
    pub(crate) fn met_at(self, place: u64, word: u32) -> Fault
        ensures { result ≡ fault_at self place word }
    {
        Fault {
            cause: self,
            place,
            word,
        }
    }
}

impl Fault {
    // The number that a fault is told by, 101 to 108. It has a name: `u8::from` would not say what number it is.
    pub fn number(self) -> u8
        ensures { result ≡ number self }
    {
        match self.cause {
            Cause::Access(fault) => fault.number(),
            Cause::Illegal => 103,
            Cause::DivisorZero => 107,
            Cause::HighNotZero => 108,
        }
    }
}
