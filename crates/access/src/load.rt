// Numbers read from several cells.
ghost use Rattle.std.specs.Prelude.{◌≡◌, ◌*◌, ◌%◌, ◌^◌, ◌<◌, ◌≤◌, length, take, IfSome, IfOk, OnSome};
ghost use Rattle.arith.specs.Widths.{bytes_of};
ghost use Rattle.access.specs.Transfers.{found, loaded, fetched};
ghost use Rattle.std.specs.Int.Digits.{number_from_digits};

use crate::align::check_aligned;
use crate::fault::{Access, AccessFault, Cause};
use arith::width::{Extension, Width, widen};
use memory::cells::Memory;

// The number in the cells from an address on, widened to 64 bits.
#[tactic(auto, using(crate::proofs::Loads::widening))]
pub fn load<M: Memory>(
    memory: &M,
    at: u64,
    width: Width,
    extension: Extension,
) -> Result<u64, AccessFault>
    ensures { result ≡ loaded (M.cells memory.now) at width extension }
{
    number_at(memory, at, width)
        .map(|number| widen(extension, width, number))
        .map_err(|cause| cause.met_by(Access::Load, at, width))
}

// The word of an instruction, which lies in four cells.
pub fn fetch<M: Memory>(memory: &M, at: u64) -> Result<u32, AccessFault>
    ensures { result ≡ fetched (M.cells memory.now) at }
{
    number_at(memory, at, Width::Long)
        .map(|number| number as u32)
        .map_err(|cause| cause.met_by(Access::Fetch, at, Width::Long))
}

// The number in the cells from an address on. Address and width are the operands of an access, and go together below
// as they come: a struct of them would be made for each access, and taken apart in each function. That the number is
// below a bound of its width is said where it is made, since no type of the library has such a bound.
// Always inlined, so that a fetch, whose width is fixed, has no branch on the width.
#[inline(always)]
fn number_at<M: Memory>(memory: &M, at: u64, width: Width) -> Result<u64, Cause>
    ensures value { result ≡ found (M.cells memory.now) at (bytes_of width) }
    ensures small { IfOk result (λ n. n < 2 ^ (8 * bytes_of width)) }
{
    check_aligned(at, width)?;
    // A match: map_or_else would put the slower way, which is the longer, before the faster.
    match leading(memory.stretch(at), width) {
        Some(number) => Ok(number),
        None => one_by_one(memory, at, width),
    }
}

// The number that the first bytes write, highest first, if there are as many as the width has.
#[inline(always)]
fn leading(bytes: &[u8], width: Width) -> Option<u64>
    ensures enough { OnSome result (bytes_of width ≤ length bytes.now) }
    ensures value { IfSome result (λ n. n ≡ number_from_digits 256 (take (bytes_of width) bytes.now)) }
    ensures small { IfSome result (λ n. n < 2 ^ (8 * bytes_of width)) }
{
    Some(match width {
        Width::Byte => u64::from(*bytes.first()?),
        Width::Word => u64::from(u16::from_be_bytes(*bytes.first_chunk()?)),
        Width::Long => u64::from(u32::from_be_bytes(*bytes.first_chunk()?)),
        Width::Quad => u64::from_be_bytes(*bytes.first_chunk()?),
    })
}

// The number in cells that the memory does not have at hand side by side, or what is wrong with them.
fn one_by_one<M: Memory>(memory: &M, at: u64, width: Width) -> Result<u64, Cause>
    requires { at % bytes_of width ≡ 0 }
    ensures value { result ≡ found (M.cells memory.now) at (bytes_of width) }
    ensures small { IfOk result (λ n. n < 2 ^ (8 * bytes_of width)) }
{
    let mut number = 0u64;
    for k in 0..width.bytes() {
        number = number * 256 + u64::from(memory.read(at + u64::from(k))?);
    }
    Ok(number)
}
