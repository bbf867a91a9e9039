// Opcodes: what the first byte of a word stands for.
ghost use Rattle.std.specs.Prelude.{◌≡◌, ◌+◌};
ghost use Rattle.isa.specs.Kinds.{width_of, extension_of};
ghost use Rattle.isa.specs.Scales.{factor};
ghost use Rattle.isa.specs.Opcodes.{opcode_or_error, code_of, load_base, kind_code, width_code, binary_code, source_code, condition_code};

use crate::table::OPCODES;
use arith::width::{Extension, Width};

// What a load reads, and how it is widened to 64 bits: by zeros or by the sign.
#[derive(Clone, Copy, PartialEq, Eq, Debug)]
pub enum Kind {
    Quad,
    ZeroLong,
    ZeroWord,
    ZeroByte,
    SignLong,
    SignWord,
    SignByte,
}

// How many bytes are read.
impl From<Kind> for Width {
    ghost from_gives = { λ kind width. width ≡ width_of kind };

    fn from(kind: Kind) -> Width {
        match kind {
            Kind::Quad => Width::Quad,
            Kind::ZeroLong | Kind::SignLong => Width::Long,
            Kind::ZeroWord | Kind::SignWord => Width::Word,
            Kind::ZeroByte | Kind::SignByte => Width::Byte,
        }
    }
}

// How they are widened; eight bytes need no widening.
impl From<Kind> for Extension {
    ghost from_gives = { λ kind extension. extension ≡ extension_of kind };

    fn from(kind: Kind) -> Extension {
        match kind {
            Kind::Quad | Kind::ZeroLong | Kind::ZeroWord | Kind::ZeroByte => Extension::Zero,
            Kind::SignLong | Kind::SignWord | Kind::SignByte => Extension::Sign,
        }
    }
}

// What the second register of an address is multiplied by.
#[derive(Clone, Copy, PartialEq, Eq, Debug)]
pub enum Scale {
    One,
    Two,
    Four,
    Eight,
}

impl Scale {
    // The number itself.
    pub fn factor(self) -> u8
        ensures { result ≡ factor self }
    {
        match self {
            Scale::One => 1,
            Scale::Two => 2,
            Scale::Four => 4,
            Scale::Eight => 8,
        }
    }
}

// How an address is made: a register and a scaled register, or a displacement and a register.
#[derive(Clone, Copy, PartialEq, Eq, Debug)]
pub enum Reach {
    Scaled(Scale),
    Displaced,
}

// Where the first operand comes from: a register, or the field itself.
#[derive(Clone, Copy, PartialEq, Eq, Debug)]
pub enum Source {
    Register,
    Immediate,
}

// The operations that take their first operand from either source.
#[derive(Clone, Copy, PartialEq, Eq, Debug)]
pub enum Operation {
    Add,
    Subtract,
    Multiply,
    Divide,
    DivideSigned,
    ShiftLeft,
    ShiftRight,
    ShiftRightSigned,
}

// When a jump is taken: Less and Greater compare with sign, Carry (below) and Above without.
#[derive(Clone, Copy, PartialEq, Eq, Debug)]
pub enum Condition {
    Always,
    Zero,
    NotZero,
    Less,
    NotLess,
    NotGreater,
    Greater,
    Carry,
    NoCarry,
    NotAbove,
    Above,
}

#[derive(Clone, Copy, PartialEq, Eq, Debug)]
pub enum Opcode {
    Load(Kind, Reach),
    Store(Width, Reach),
    Binary(Operation, Source),
    // adds the old zero flag too
    AddWithZero,
    // adds three times the field
    AddTriple,
    Or,
    And,
    Not,
    // sets a register to 16 bits, widened by zeros or by the sign
    LoadUnsigned,
    LoadSigned,
    // shifts 16 bits into a register from below
    ShiftIn,
    Jump(Condition),
    JumpRegister,
    Halt(Source),
    Trap,
    Get,
    Put(Source),
    Nothing,
}

fn load_base(reach: Reach) -> u8
    ensures { result ≡ load_base reach }
{
    match reach {
        Reach::Scaled(Scale::One) => 0x10,
        Reach::Scaled(Scale::Two) => 0x80,
        Reach::Scaled(Scale::Four) => 0xA0,
        Reach::Scaled(Scale::Eight) => 0xC0,
        Reach::Displaced => 0x18,
    }
}

// A table for each part, and no trait: each is called in one place.
fn kind_code(kind: Kind) -> u8
    ensures { result ≡ kind_code kind }
{
    match kind {
        Kind::Quad => 0,
        Kind::ZeroLong => 1,
        Kind::ZeroWord => 2,
        Kind::ZeroByte => 3,
        Kind::SignLong => 5,
        Kind::SignWord => 6,
        Kind::SignByte => 7,
    }
}

fn width_code(width: Width) -> u8
    ensures { result ≡ width_code width }
{
    match width {
        Width::Quad => 0,
        Width::Long => 1,
        Width::Word => 2,
        Width::Byte => 3,
    }
}

fn binary_code(operation: Operation, source: Source) -> u8
    ensures { result ≡ binary_code operation + source_code source }
{
    let base = match operation {
        Operation::Add => 0x30,
        Operation::Subtract => 0x31,
        Operation::Divide => 0x33,
        Operation::Multiply => 0x34,
        Operation::DivideSigned => 0x35,
        Operation::ShiftLeft => 0x52,
        Operation::ShiftRight => 0x53,
        Operation::ShiftRightSigned => 0x54,
    };
    match source {
        Source::Register => base,
        Source::Immediate => base + 8,
    }
}

fn condition_code(condition: Condition) -> u8
    ensures { result ≡ condition_code condition }
{
    match condition {
        Condition::Always => 0x41,
        Condition::Zero => 0x42,
        Condition::NotZero => 0x43,
        Condition::Less => 0x44,
        Condition::NotLess => 0x45,
        Condition::NotGreater => 0x46,
        Condition::Greater => 0x47,
        Condition::Carry => 0x48,
        Condition::NoCarry => 0x49,
        Condition::NotAbove => 0x4A,
        Condition::Above => 0x4B,
    }
}

// A byte that stands for no opcode.
#[derive(Clone, Copy, PartialEq, Eq, Debug)]
pub struct NoOpcode(pub u8);

impl TryFrom<u8> for Opcode {
    type Error = NoOpcode;

    ghost try_from_gives = { λ byte r. r ≡ opcode_or_error byte };

    fn try_from(byte: u8) -> Result<Opcode, NoOpcode> {
        OPCODES[usize::from(byte)].ok_or(NoOpcode(byte))
    }
}

// The byte that stands for an opcode.
impl From<Opcode> for u8 {
    ghost from_gives = { λ opcode byte. byte ≡ code_of opcode };

    fn from(opcode: Opcode) -> u8 {
        match opcode {
            Opcode::Load(kind, reach) => load_base(reach) + kind_code(kind),
            Opcode::Store(width, reach) => load_base(reach) + 0x10 + width_code(width),
            Opcode::Binary(operation, source) => binary_code(operation, source),
            Opcode::AddWithZero => 0x37,
            Opcode::AddTriple => 0x06,
            Opcode::Or => 0x50,
            Opcode::And => 0x51,
            Opcode::Not => 0x5E,
            Opcode::LoadUnsigned => 0x56,
            Opcode::LoadSigned => 0x57,
            Opcode::ShiftIn => 0x5D,
            Opcode::Jump(condition) => condition_code(condition),
            Opcode::JumpRegister => 0x40,
            Opcode::Halt(Source::Register) => 0x01,
            Opcode::Halt(Source::Immediate) => 0x09,
            Opcode::Trap => 0x02,
            Opcode::Get => 0x60,
            Opcode::Put(Source::Register) => 0x61,
            Opcode::Put(Source::Immediate) => 0x69,
            Opcode::Nothing => 0xFF,
        }
    }
}
