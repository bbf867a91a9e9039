// Writing the line of an instruction into a lent buffer.
ghost use Rattle.std.specs.Prelude.{◌≡◌};
ghost use Rattle.lines.specs.Lines.{line_of, Writes};

use crate::line::Line;
use isa::instruction::Instruction;

// Why a line is not written.
#[derive(Clone, Copy, PartialEq, Eq, Debug)]
pub enum LineRefusal {
    // the word stands for no instruction
    NotLegal,
    // the buffer is shorter than the line
    TooShort,
}

// The line of an instruction.
#[tactic(auto, using(crate::proofs::Clips::clipped_twice, crate::proofs::Clips::whole, crate::proofs::Lengths::short_line), unfolding(crate::specs::Lines::line_of))]
pub fn line(instruction: Instruction) -> Line
    ensures { result ≡ line_of instruction }
{
    let opcode = instruction.opcode();
    let (x, y, z) = instruction.fields();
    let mut line = Line::new();
    line.put_line(opcode, x, y, z);
    line
}

// Writes the line of an instruction and answers its length; the rest of the buffer is left. A buffer that is too
// short is refused with 11, and nothing is written.
pub fn write_line(instruction: Instruction, buffer: &mut [u8]) -> Result<usize, LineRefusal>
    ensures { Writes instruction buffer.old result buffer.new }
{
    let line = line(instruction);
    let text = line.as_slice();
    // Not get_mut: it does not say what the buffer holds after a write to a range that it lends.
    if buffer.len() < text.len() {
        return Err(LineRefusal::TooShort);
    }
    buffer[..text.len()].copy_from_slice(text);
    Ok(text.len())
}
