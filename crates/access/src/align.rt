// Where an access may begin.
ghost use Rattle.std.specs.Prelude.{◌≡◌, ◌≢◌, ◌%◌, IfErr, OnOk};
ghost use Rattle.arith.specs.Widths.{bytes_of};
ghost use Rattle.access.specs.declared.fault.Cause.{Cause};

use crate::fault::Cause;
use arith::width::Width;

// Whether an address is a multiple of the width.
pub(crate) fn check_aligned(at: u64, width: Width) -> Result<(), Cause>
    ensures aligned { OnOk result (at % bytes_of width ≡ 0) }
    ensures misaligned { IfErr result (λ e. (at % bytes_of width ≢ 0) × (e ≡ Cause.Misaligned)) }
{
    // Each divisor is written out: a remainder by a power of two is a mask, and one by a variable a division.
    let past = match width {
        Width::Byte => 0,
        Width::Word => at % 2,
        Width::Long => at % 4,
        Width::Quad => at % 8,
    };
    if past == 0 {
        Ok(())
    } else {
        Err(Cause::Misaligned)
    }
}
