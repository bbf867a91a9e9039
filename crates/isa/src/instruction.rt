// Instructions, and the opcode and fields of each.
ghost use Rattle.std.specs.Prelude.{◌≡◌};
ghost use Rattle.isa.specs.Instructions.{opcode, fields, reach_of, pair_of, source_of, field_of, split, FitsAddress, Formed};

use crate::distance::Distance;
use crate::opcode::{Condition, Kind, Opcode, Operation, Reach, Scale, Source};
use arith::width::Width;

// The address of a load or a store: a register plus a scaled one, or a displacement plus a register.
#[derive(Clone, Copy, PartialEq, Eq, Debug)]
pub enum Address {
    Scaled { base: u8, index: u8, scale: Scale },
    Displaced { displacement: i8, base: u8 },
}

// A first operand: a register's number, or the field itself.
#[derive(Clone, Copy, PartialEq, Eq, Debug)]
pub enum Operand {
    Register(u8),
    Immediate(u8),
}

// Registers are given by their numbers.
#[derive(Clone, Copy, PartialEq, Eq, Debug)]
pub enum Instruction {
    Load {
        kind: Kind,
        address: Address,
        to: u8,
    },
    Store {
        width: Width,
        from: u8,
        address: Address,
    },
    Binary {
        operation: Operation,
        a: Operand,
        b: u8,
        to: u8,
    },
    AddWithZero {
        a: u8,
        b: u8,
        to: u8,
    },
    AddTriple {
        x: u8,
        b: u8,
        to: u8,
    },
    Or {
        a: u8,
        b: u8,
        to: u8,
    },
    And {
        a: u8,
        b: u8,
        to: u8,
    },
    Not {
        from: u8,
        to: u8,
    },
    LoadUnsigned {
        value: u16,
        to: u8,
    },
    LoadSigned {
        value: i16,
        to: u8,
    },
    ShiftIn {
        value: u16,
        to: u8,
    },
    Jump {
        condition: Condition,
        distance: Distance,
    },
    JumpRegister {
        target: u8,
        link: u8,
    },
    Halt {
        code: Operand,
    },
    Trap {
        x: u8,
        y: u8,
        z: u8,
    },
    Get {
        to: u8,
    },
    Put {
        from: Operand,
    },
    Nothing,
}

impl Address {
    fn reach(self) -> Reach
        ensures { result ≡ reach_of self }
    {
        match self {
            Address::Scaled { scale, .. } => Reach::Scaled(scale),
            Address::Displaced { .. } => Reach::Displaced,
        }
    }

    // Its two fields.
    fn pair(self) -> (u8, u8)
        ensures value { result ≡ pair_of self }
        ensures fits { FitsAddress self }
    {
        match self {
            Address::Scaled { base, index, .. } => (base, index),
            Address::Displaced { displacement, base } => (displacement.cast_unsigned(), base),
        }
    }
}

impl Operand {
    fn source(self) -> Source
        ensures { result ≡ source_of self }
    {
        match self {
            Operand::Register(_) => Source::Register,
            Operand::Immediate(_) => Source::Immediate,
        }
    }

    fn field(self) -> u8
        ensures { result ≡ field_of self }
    {
        match self {
            Operand::Register(number) => number,
            Operand::Immediate(value) => value,
        }
    }
}

// 16 bits as two fields, the high byte first.
fn high_low(value: u16, z: u8) -> (u8, u8, u8)
    ensures { result ≡ split value z }
{
    let [x, y] = value.to_be_bytes();
    (x, y, z)
}

impl Instruction {
    // The opcode of its word.
    pub fn opcode(self) -> Opcode
        ensures { result ≡ opcode self }
    {
        match self {
            Instruction::Load { kind, address, .. } => Opcode::Load(kind, address.reach()),
            Instruction::Store { width, address, .. } => Opcode::Store(width, address.reach()),
            Instruction::Binary { operation, a, .. } => Opcode::Binary(operation, a.source()),
            Instruction::AddWithZero { .. } => Opcode::AddWithZero,
            Instruction::AddTriple { .. } => Opcode::AddTriple,
            Instruction::Or { .. } => Opcode::Or,
            Instruction::And { .. } => Opcode::And,
            Instruction::Not { .. } => Opcode::Not,
            Instruction::LoadUnsigned { .. } => Opcode::LoadUnsigned,
            Instruction::LoadSigned { .. } => Opcode::LoadSigned,
            Instruction::ShiftIn { .. } => Opcode::ShiftIn,
            Instruction::Jump { condition, .. } => Opcode::Jump(condition),
            Instruction::JumpRegister { .. } => Opcode::JumpRegister,
            Instruction::Halt { code } => Opcode::Halt(code.source()),
            Instruction::Trap { .. } => Opcode::Trap,
            Instruction::Get { .. } => Opcode::Get,
            Instruction::Put { from } => Opcode::Put(from.source()),
            Instruction::Nothing => Opcode::Nothing,
        }
    }

    // The fields X, Y and Z of its word; those without a meaning are 0. All its numbers are read here, so here it is
    // said that they fit their types. They stay a triple: a struct of them would be taken apart wherever it is made.
    pub fn fields(self) -> (u8, u8, u8)
        ensures value { result ≡ fields self }
        ensures formed { Formed self }
    {
        match self {
            Instruction::Load { address, to, .. } => {
                let (x, y) = address.pair();
                (x, y, to)
            }
            Instruction::Store { from, address, .. } => {
                let (y, z) = address.pair();
                (from, y, z)
            }
            Instruction::Binary { a, b, to, .. } => (a.field(), b, to),
            Instruction::AddWithZero { a, b, to } => (a, b, to),
            Instruction::AddTriple { x, b, to } => (x, b, to),
            Instruction::Or { a, b, to } => (a, b, to),
            Instruction::And { a, b, to } => (a, b, to),
            Instruction::Not { from, to } => (from, to, 0),
            Instruction::LoadUnsigned { value, to } => high_low(value, to),
            Instruction::LoadSigned { value, to } => high_low(value.cast_unsigned(), to),
            Instruction::ShiftIn { value, to } => high_low(value, to),
            Instruction::Jump { distance, .. } => {
                let [y, z] = distance.low.to_be_bytes();
                (distance.high.cast_unsigned(), y, z)
            }
            Instruction::JumpRegister { target, link } => (target, link, 0),
            Instruction::Halt { code } => (code.field(), 0, 0),
            Instruction::Trap { x, y, z } => (x, y, z),
            Instruction::Get { to } => (to, 0, 0),
            Instruction::Put { from } => (from.field(), 0, 0),
            Instruction::Nothing => (0, 0, 0),
        }
    }
}
