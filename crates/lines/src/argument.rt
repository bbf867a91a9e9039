// The operands of an instruction as its line has them.
ghost use Rattle.std.specs.Prelude.{◌≡◌, ℤ, ◌+◌, ◌*◌, pos, ◌*ℤ◌};
ghost use Rattle.std.specs.Int.{w8, w16};
ghost use Rattle.std.proofs.Common.{to_z};
ghost use Rattle.isa.specs.Distances.{words_of};
ghost use Rattle.isa.specs.Words.{distance_of};
ghost use Rattle.lines.specs.Lines.{immediate, plain, address, arguments};

use isa::distance::Distance;
use isa::opcode::{Opcode, Operation, Reach, Scale, Source};

#[derive(Clone, Copy, PartialEq, Eq, Debug)]
pub enum Argument {
    Register(u8),
    Number(i32),
    // a register plus a scaled register
    Scaled(u8, u8, Scale),
    // a displacement plus a register
    Displaced(i8, u8),
}

// As an enum, which says how many there are: a vector of three would be filled by pushes that can be refused.
#[derive(Clone, Copy, PartialEq, Eq, Debug)]
pub enum Arguments {
    Zero,
    One(Argument),
    Two(Argument, Argument),
    Three(Argument, Argument, Argument),
}

// A number without a sign, or with one.
fn number<T: Into<i32>>(value: T) -> Argument
    ensures { (z : ℤ) × T.converts value z × (result ≡ Argument.Number z) }
{
    Argument::Number(value.into())
}

fn immediate(operation: Operation, x: u8) -> Argument
    ensures { result ≡ Argument.Number (immediate operation x) }
{
    match operation {
        Operation::Multiply => number(x.cast_signed()),
        _ => number(x),
    }
}

fn plain(source: Source, x: u8) -> Argument
    ensures { result ≡ plain source x }
{
    match source {
        Source::Register => Argument::Register(x),
        Source::Immediate => number(x),
    }
}

fn wide(x: u8, y: u8) -> u16
    ensures { result ≡ x * 256 + y }
{
    u16::from_be_bytes([x, y])
}

fn registers(x: u8, y: u8, z: u8) -> Arguments
    ensures { result ≡ Arguments.Three (Argument.Register x) (Argument.Register y) (Argument.Register z) }
{
    Arguments::Three(
        Argument::Register(x),
        Argument::Register(y),
        Argument::Register(z),
    )
}

fn address(reach: Reach, x: u8, y: u8) -> Argument
    ensures { result ≡ address reach x y }
{
    match reach {
        Reach::Scaled(scale) => Argument::Scaled(x, y, scale),
        Reach::Displaced => Argument::Displaced(x.cast_signed(), y),
    }
}

// The operands of an opcode with the fields X, Y and Z, in their order.
pub(crate) fn arguments_of(opcode: Opcode, x: u8, y: u8, z: u8) -> Arguments
    ensures { result ≡ arguments opcode x y z }
{
    match opcode {
        Opcode::Load(_, reach) => Arguments::Two(address(reach, x, y), Argument::Register(z)),
        Opcode::Store(_, reach) => Arguments::Two(Argument::Register(x), address(reach, y, z)),
        Opcode::Binary(_, Source::Register)
        | Opcode::AddWithZero
        | Opcode::Or
        | Opcode::And
        | Opcode::Trap => registers(x, y, z),
        Opcode::Binary(operation, Source::Immediate) => {
            Arguments::Three(
                immediate(operation, x),
                Argument::Register(y),
                Argument::Register(z),
            )
        }
        Opcode::AddTriple => Arguments::Three(
            number(x),
            Argument::Register(y),
            Argument::Register(z),
        ),
        Opcode::Not | Opcode::JumpRegister => {
            Arguments::Two(Argument::Register(x), Argument::Register(y))
        }
        Opcode::LoadUnsigned | Opcode::ShiftIn => {
            Arguments::Two(number(wide(x, y)), Argument::Register(z))
        }
        Opcode::LoadSigned => {
            Arguments::Two(number(wide(x, y).cast_signed()), Argument::Register(z))
        }
        Opcode::Jump(_) => Arguments::One(number(Distance::from([x, y, z]).bytes())),
        Opcode::Halt(source) | Opcode::Put(source) => Arguments::One(plain(source, x)),
        Opcode::Get => Arguments::One(Argument::Register(x)),
        Opcode::Nothing => Arguments::Zero,
    }
}
