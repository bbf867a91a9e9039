// The name of each opcode. A function for each of its parts and no trait: each is called in one place.
ghost use Rattle.std.specs.Prelude.{◌≡◌};
ghost use Rattle.lines.specs.Names.{kind_name, width_name, operation_name, condition_name, name_of};

use arith::width::Width;
use isa::opcode::{Condition, Kind, Opcode, Operation};

fn kind_name(kind: Kind) -> &'static [u8]
    ensures { result.now ≡ kind_name kind }
{
    match kind {
        Kind::Quad => b"movq",
        Kind::ZeroLong => b"movzlq",
        Kind::ZeroWord => b"movzwq",
        Kind::ZeroByte => b"movzbq",
        Kind::SignLong => b"movslq",
        Kind::SignWord => b"movswq",
        Kind::SignByte => b"movsbq",
    }
}

fn width_name(width: Width) -> &'static [u8]
    ensures { result.now ≡ width_name width }
{
    match width {
        Width::Quad => b"movq",
        Width::Long => b"movl",
        Width::Word => b"movw",
        Width::Byte => b"movb",
    }
}

fn operation_name(operation: Operation) -> &'static [u8]
    ensures { result.now ≡ operation_name operation }
{
    match operation {
        Operation::Add => b"addq",
        Operation::Subtract => b"subq",
        Operation::Multiply => b"imulq",
        Operation::Divide => b"divq",
        Operation::DivideSigned => b"idivq",
        Operation::ShiftLeft => b"salq",
        Operation::ShiftRight => b"shrq",
        Operation::ShiftRightSigned => b"sarq",
    }
}

fn condition_name(condition: Condition) -> &'static [u8]
    ensures { result.now ≡ condition_name condition }
{
    match condition {
        Condition::Always => b"jmp",
        Condition::Zero => b"jz",
        Condition::NotZero => b"jne",
        Condition::Less => b"jnge",
        Condition::NotLess => b"jge",
        Condition::NotGreater => b"jng",
        Condition::Greater => b"jg",
        Condition::Carry => b"jb",
        Condition::NoCarry => b"jae",
        Condition::NotAbove => b"jna",
        Condition::Above => b"ja",
    }
}

// The name of an opcode.
pub(crate) fn name(opcode: Opcode) -> &'static [u8]
    ensures { result.now ≡ name_of opcode }
{
    match opcode {
        Opcode::Load(kind, _) => kind_name(kind),
        Opcode::Store(width, _) => width_name(width),
        Opcode::Binary(operation, _) => operation_name(operation),
        Opcode::AddWithZero => b"adcq",
        Opcode::AddTriple => b"hm3Add",
        Opcode::Or => b"orq",
        Opcode::And => b"andq",
        Opcode::Not => b"notq",
        Opcode::LoadUnsigned => b"ldzwq",
        Opcode::LoadSigned => b"ldswq",
        Opcode::ShiftIn => b"shldwq",
        Opcode::Jump(condition) => condition_name(condition),
        Opcode::JumpRegister => b"jmp",
        Opcode::Halt(_) => b"halt",
        Opcode::Trap => b"trap",
        Opcode::Get => b"getc",
        Opcode::Put(_) => b"putc",
        Opcode::Nothing => b"nop",
    }
}
