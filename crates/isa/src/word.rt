// Words of four bytes, highest first, and the instructions that they stand for.
ghost use Rattle.std.specs.Prelude.{◌≡◌, Some};
ghost use Rattle.isa.specs.Instructions.{encoded};
ghost use Rattle.isa.specs.Words.{decoded, with_fields, address_of, operand_of, Decodes};

use crate::distance::Distance;
use crate::instruction::{Address, Instruction, Operand};
use crate::opcode::{Opcode, Reach, Source};

impl Reach {
    // The address that is made so from its two fields.
    fn address(self, first: u8, second: u8) -> Address
        ensures { result ≡ address_of self first second }
    {
        match self {
            Reach::Scaled(scale) => Address::Scaled {
                base: first,
                index: second,
                scale,
            },
            Reach::Displaced => Address::Displaced {
                displacement: first.cast_signed(),
                base: second,
            },
        }
    }
}

impl Source {
    // The operand that comes from there.
    fn operand(self, x: u8) -> Operand
        ensures { result ≡ operand_of self x }
    {
        match self {
            Source::Register => Operand::Register(x),
            Source::Immediate => Operand::Immediate(x),
        }
    }
}

// The instruction of an opcode and the fields X, Y and Z; none where a field without a meaning is not 0.
fn from_fields(opcode: Opcode, x: u8, y: u8, z: u8) -> Option<Instruction>
    ensures { result ≡ with_fields opcode x y z }
{
    let value = u16::from_be_bytes([x, y]);
    let signed = value.cast_signed();
    let is_alone = y == 0 && z == 0;
    Some(match opcode {
        Opcode::Load(kind, reach) => Instruction::Load {
            kind,
            address: reach.address(x, y),
            to: z,
        },
        Opcode::Store(width, reach) => Instruction::Store {
            width,
            from: x,
            address: reach.address(y, z),
        },
        Opcode::Binary(operation, source) => Instruction::Binary {
            operation,
            a: source.operand(x),
            b: y,
            to: z,
        },
        Opcode::AddWithZero => Instruction::AddWithZero { a: x, b: y, to: z },
        Opcode::AddTriple => Instruction::AddTriple { x, b: y, to: z },
        Opcode::Or => Instruction::Or { a: x, b: y, to: z },
        Opcode::And => Instruction::And { a: x, b: y, to: z },
        Opcode::Not if z == 0 => Instruction::Not { from: x, to: y },
        Opcode::LoadUnsigned => Instruction::LoadUnsigned { value, to: z },
        Opcode::LoadSigned => Instruction::LoadSigned {
            value: signed,
            to: z,
        },
        Opcode::ShiftIn => Instruction::ShiftIn { value, to: z },
        Opcode::Jump(condition) => Instruction::Jump {
            condition,
            distance: Distance::from([x, y, z]),
        },
        Opcode::JumpRegister if z == 0 => Instruction::JumpRegister { target: x, link: y },
        Opcode::Halt(source) if is_alone => Instruction::Halt {
            code: source.operand(x),
        },
        Opcode::Trap => Instruction::Trap { x, y, z },
        Opcode::Get if is_alone => Instruction::Get { to: x },
        Opcode::Put(source) if is_alone => Instruction::Put {
            from: source.operand(x),
        },
        Opcode::Nothing if x == 0 && is_alone => Instruction::Nothing,
        _ => return None,
    })
}

// The instruction that a word stands for; none where the word is not legal, that is where no instruction has it.
#[tactic(auto, using(crate::proofs::Trips::decodes_as))]
pub fn decode(word: [u8; 4]) -> Option<Instruction>
    ensures value { result ≡ decoded word }
    ensures inverse { Decodes word result }
{
    let [op, x, y, z] = word;
    from_fields(Opcode::try_from(op).ok()?, x, y, z)
}

// The word that stands for an instruction.
#[tactic(auto, using(crate::proofs::Trips::decoded_encoded))]
pub fn encode(instruction: Instruction) -> [u8; 4]
    ensures value { result ≡ encoded instruction }
    ensures inverse { decoded result ≡ Some instruction }
{
    let (x, y, z) = instruction.fields();
    [u8::from(instruction.opcode()), x, y, z]
}
