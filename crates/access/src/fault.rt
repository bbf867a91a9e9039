// What can be wrong with an access.
ghost use Rattle.std.specs.Prelude.{◌≡◌};
ghost use Rattle.access.specs.Faults.{fault_of, number};
ghost use Rattle.access.specs.declared.fault.Cause.{Cause};

use arith::width::Width;
use memory::cells::CellFault;

#[derive(Clone, Copy, PartialEq, Eq, Debug)]
pub enum Access {
    Fetch,
    Load,
    Store,
}

#[derive(Clone, Copy, PartialEq, Eq, Debug)]
pub enum Cause {
    // the address is not a multiple of the width
    Misaligned,
    // what the memory said of a cell
    Cell(CellFault),
}

// By hand, since contracts say what `?` makes of a cell's fault.
impl From<CellFault> for Cause {
    ghost from_gives = { λ cell r. r ≡ Cause.Cell cell };

    fn from(cell: CellFault) -> Cause {
        Cause::Cell(cell)
    }
}

// A cause, with the access that met it.
#[derive(Clone, Copy, PartialEq, Eq, Debug)]
pub struct AccessFault {
    pub access: Access,
    pub address: u64,
    pub width: Width,
    pub cause: Cause,
}

impl Cause {
    // The fault of an access that met it.
    pub(crate) fn met_by(self, access: Access, address: u64, width: Width) -> AccessFault
        ensures { result ≡ fault_of access address width self }
    {
        AccessFault {
            access,
            address,
            width,
            cause: self,
        }
    }
}

impl AccessFault {
    // The number that a fault is told by. It has a name: `u8::from` would not say what number it is.
    pub fn number(self) -> u8
        ensures { result ≡ number self }
    {
        match (self.access, self.cause) {
            (Access::Fetch, Cause::Misaligned) => 101,
            (Access::Fetch, Cause::Cell(_)) => 102,
            (_, Cause::Misaligned) => 104,
            (_, Cause::Cell(CellFault::Outside)) => 105,
            (_, Cause::Cell(CellFault::Shut)) => 106,
        }
    }
}
