// How long the slices of a tray or a page may be.
ghost use Rattle.std.specs.Prelude.{◌≡◌, length};
ghost use Rattle.console.specs.Refusals.{numbered};
ghost use Rattle.consoles.specs.Limits.{fit, check_says, usable_of};

use console::Refusal;

// The most bytes that a slice may have.
const MOST: usize = 65536;

// A truth value: it decides what is usable as well as what is refused.
fn fits(input: usize, output: usize) -> bool
    ensures { result ≡ fit input output }
{
    input <= MOST && output <= MOST
}

// How many bytes of each slice a tray or a page takes, of slices as long as this.
pub(crate) fn usable(input: usize, output: usize) -> (usize, usize)
    ensures { result ≡ usable_of input output }
{
    if fits(input, output) {
        (input, output)
    } else {
        (0, 0)
    }
}

// Refuses the slices of a tray or a page where one has more than 65,536 bytes. Made all the same, the tray or page takes
// both as empty.
pub fn check(input: &[u8], output: &[u8]) -> Result<(), Refusal>
    ensures { numbered result ≡ check_says (length input.now) (length output.now) }
{
    if fits(input.len(), output.len()) {
        Ok(())
    } else {
        Err(Refusal::TooLong)
    }
}
