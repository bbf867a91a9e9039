// Reading the line of an instruction: the word that it can be is guessed from its pieces, and its line compared.
ghost use Rattle.std.specs.Prelude.{◌≡◌, ◌<◌, Decides};
ghost use Rattle.lines.specs.Names.{name_of, IsName};
ghost use Rattle.lines.specs.Lines.{line_of, Reads};
ghost use Rattle.lines.specs.Pieces.{piece};
ghost use Rattle.lines.specs.Reading.{bases, named_in, scale_read, reach_read, source_read, chosen, three_registers, immediate_fields, wide_fields, one_field, load_fields, store_fields, jump_fields, fields_read, taken_for};

use crate::names::name;
use crate::pieces::Pieces;
use crate::writing::line;
use arith::width::Width;
use isa::instruction::Instruction;
use isa::opcode::{Condition, Kind, Opcode, Operation, Reach, Scale, Source};
use isa::word::decode;

// One opcode for each name.
static BASES: [Opcode; 42] = [
    Opcode::Load(Kind::Quad, Reach::Displaced),
    Opcode::Load(Kind::ZeroLong, Reach::Displaced),
    Opcode::Load(Kind::ZeroWord, Reach::Displaced),
    Opcode::Load(Kind::ZeroByte, Reach::Displaced),
    Opcode::Load(Kind::SignLong, Reach::Displaced),
    Opcode::Load(Kind::SignWord, Reach::Displaced),
    Opcode::Load(Kind::SignByte, Reach::Displaced),
    Opcode::Store(Width::Long, Reach::Displaced),
    Opcode::Store(Width::Word, Reach::Displaced),
    Opcode::Store(Width::Byte, Reach::Displaced),
    Opcode::Binary(Operation::Add, Source::Register),
    Opcode::Binary(Operation::Subtract, Source::Register),
    Opcode::Binary(Operation::Multiply, Source::Register),
    Opcode::Binary(Operation::Divide, Source::Register),
    Opcode::Binary(Operation::DivideSigned, Source::Register),
    Opcode::Binary(Operation::ShiftLeft, Source::Register),
    Opcode::Binary(Operation::ShiftRight, Source::Register),
    Opcode::Binary(Operation::ShiftRightSigned, Source::Register),
    Opcode::Jump(Condition::Always),
    Opcode::Jump(Condition::Zero),
    Opcode::Jump(Condition::NotZero),
    Opcode::Jump(Condition::Less),
    Opcode::Jump(Condition::NotLess),
    Opcode::Jump(Condition::NotGreater),
    Opcode::Jump(Condition::Greater),
    Opcode::Jump(Condition::Carry),
    Opcode::Jump(Condition::NoCarry),
    Opcode::Jump(Condition::NotAbove),
    Opcode::Jump(Condition::Above),
    Opcode::AddWithZero,
    Opcode::AddTriple,
    Opcode::Or,
    Opcode::And,
    Opcode::Not,
    Opcode::LoadUnsigned,
    Opcode::LoadSigned,
    Opcode::ShiftIn,
    Opcode::Halt(Source::Register),
    Opcode::Trap,
    Opcode::Get,
    Opcode::Put(Source::Register),
    Opcode::Nothing,
];

// The opcode that stands for a name.
fn named(text: &[u8]) -> Option<Opcode>
    ensures { result ≡ named_in text.now bases }
{
    BASES.iter().find(|base| name(**base) == text).copied()
}

// Whether a text is the name of an instruction. `Decides` is the library's word for that, here and below.
#[tactic(auto, using(crate::proofs::Searches::name_decided))]
pub fn is_name(text: &[u8]) -> bool
    ensures { Decides result (IsName text.now) }
{
    named(text).is_some()
}

impl Pieces<'_> {
    fn scale(&self, index: usize) -> Scale
        ensures { result ≡ scale_read (piece self.now index) }
    {
        match self.at(index) {
            [b'1', ..] => Scale::One,
            [b'2', ..] => Scale::Two,
            [b'4', ..] => Scale::Four,
            _ => Scale::Eight,
        }
    }

    // How the address is reached whose first piece has an index.
    fn reach(&self, index: usize) -> Reach
        requires { index < 8 }
        ensures { result ≡ reach_read self.now index }
    {
        if self.starts(index, b'%') {
            Reach::Scaled(self.scale(index + 2))
        } else {
            Reach::Displaced
        }
    }

    fn source(&self) -> Source
        ensures { result ≡ source_read self.now }
    {
        if self.starts(2, b'%') {
            Source::Register
        } else {
            Source::Immediate
        }
    }

    fn load_or_store(&self, kind: Kind) -> Opcode
        ensures { result ≡ chosen (Opcode.Load kind Reach.Displaced) self.now }
    {
        if self.at(2).is_empty() {
            Opcode::Load(kind, self.reach(3))
        } else {
            Opcode::Store(Width::Quad, self.reach(4))
        }
    }

    fn jump(&self, condition: Condition) -> Opcode
        ensures { result ≡ chosen (Opcode.Jump condition) self.now }
    {
        if self.starts(2, b'%') {
            Opcode::JumpRegister
        } else {
            Opcode::Jump(condition)
        }
    }

    // The opcode of a line, from the one that stands for its name.
    fn choose(&self, base: Opcode) -> Opcode
        ensures { result ≡ chosen base self.now }
    {
        match base {
            Opcode::Load(kind, _) => self.load_or_store(kind),
            Opcode::Store(width, _) => Opcode::Store(width, self.reach(4)),
            Opcode::Binary(operation, _) => Opcode::Binary(operation, self.source()),
            Opcode::Jump(condition) => self.jump(condition),
            Opcode::Halt(_) => Opcode::Halt(self.source()),
            Opcode::Put(_) => Opcode::Put(self.source()),
            _ => base,
        }
    }

    // The fields X, Y and Z are a triple here and below, as an instruction gives them.
    fn three_registers(&self) -> (u8, u8, u8)
        ensures { result ≡ three_registers self.now }
    {
        (self.register(2), self.register(3), self.register(4))
    }

    fn immediate_fields(&self) -> (u8, u8, u8)
        ensures { result ≡ immediate_fields self.now }
    {
        (self.byte(2), self.register(3), self.register(4))
    }

    fn wide_fields(&self) -> (u8, u8, u8)
        ensures { result ≡ wide_fields self.now }
    {
        let [_, _, x, y] = self.number(2).to_be_bytes();
        (x, y, self.register(3))
    }

    fn one_field(&self, source: Source) -> (u8, u8, u8)
        ensures { result ≡ one_field source self.now }
    {
        match source {
            Source::Register => (self.register(2), 0, 0),
            Source::Immediate => (self.byte(2), 0, 0),
        }
    }

    fn load_fields(&self, reach: Reach) -> (u8, u8, u8)
        ensures { result ≡ load_fields reach self.now }
    {
        match reach {
            Reach::Scaled(_) => (self.register(3), self.register(4), self.register(7)),
            Reach::Displaced => (self.byte(3), self.register(4), self.register(6)),
        }
    }

    fn store_fields(&self, reach: Reach) -> (u8, u8, u8)
        ensures { result ≡ store_fields reach self.now }
    {
        match reach {
            Reach::Scaled(_) => (self.register(2), self.register(4), self.register(5)),
            Reach::Displaced => (self.register(2), self.byte(4), self.register(5)),
        }
    }

    fn jump_fields(&self) -> (u8, u8, u8)
        ensures { result ≡ jump_fields self.now }
    {
        let words = self.number(2) / 4;
        let [_, x, y, z] = words.to_be_bytes();
        (x, y, z)
    }

    // The fields X, Y and Z of a line with an opcode.
    fn fields(&self, opcode: Opcode) -> (u8, u8, u8)
        ensures { result ≡ fields_read opcode self.now }
    {
        match opcode {
            Opcode::Load(_, reach) => self.load_fields(reach),
            Opcode::Store(_, reach) => self.store_fields(reach),
            Opcode::Binary(_, Source::Register)
            | Opcode::AddWithZero
            | Opcode::Or
            | Opcode::And
            | Opcode::Trap => self.three_registers(),
            Opcode::Binary(_, Source::Immediate) | Opcode::AddTriple => self.immediate_fields(),
            Opcode::Not | Opcode::JumpRegister => (self.register(2), self.register(3), 0),
            Opcode::LoadUnsigned | Opcode::LoadSigned | Opcode::ShiftIn => self.wide_fields(),
            Opcode::Jump(_) => self.jump_fields(),
            Opcode::Halt(source) | Opcode::Put(source) => self.one_field(source),
            Opcode::Get => self.one_field(Source::Register),
            Opcode::Nothing => (0, 0, 0),
        }
    }
}

// The word that a line is taken for.
fn guess(text: &[u8]) -> Option<[u8; 4]>
    ensures { result ≡ taken_for text.now }
{
    let pieces = Pieces::of(text);
    let base = named(pieces.at(1))?;
    let opcode = pieces.choose(base);
    let (x, y, z) = pieces.fields(opcode);
    Some([u8::from(opcode), x, y, z])
}

// Whether a text is the line of an instruction.
fn is_line(instruction: Instruction, text: &[u8]) -> bool
    ensures { Decides result (line_of instruction ≡ text.now) }
{
    line(instruction).as_slice() == text
}

// The instruction whose line a text is; none where it is the line of none. No two instructions share a line.
pub fn read_line(text: &[u8]) -> Option<Instruction>
    ensures { Reads text.now result }
{
    let instruction = decode(guess(text)?)?;
    is_line(instruction, text).then_some(instruction)
}
