// Writing the operands of an instruction into a line. Not through Display: what prints by write! may answer an error,
// and a line is always written.
#![tactic(auto, using(crate::proofs::Clips::clipped_twice))]

ghost use Rattle.std.specs.Prelude.{◌≡◌};
ghost use Rattle.lines.specs.Lines.{register, written, spaced, trailing, line_with};
ghost use Rattle.lines.specs.Texts.{clipped};

use super::Line;
use crate::argument::{Argument, Arguments, arguments_of};
use crate::names::name;
use isa::opcode::{Opcode, Scale};
use itoa::{Buffer, Integer};

impl Line {
    // A number in decimal, with its sign where it has one.
    fn put_number<I: Integer>(&mut self, number: I)
        ensures { self.new ≡ clipped self.old (I.text number) }
    {
        self.put(Buffer::new().format(number).as_bytes());
    }

    fn put_register(&mut self, number: u8)
        ensures { self.new ≡ clipped self.old (register number) }
    {
        self.put_byte(b'%');
        self.put_number(number);
    }

    fn put_scaled(&mut self, base: u8, index: u8, scale: Scale)
        ensures { self.new ≡ clipped self.old (written (Argument.Scaled base index scale)) }
    {
        self.put_byte(b'(');
        self.put_register(base);
        self.put_byte(b' ');
        self.put_register(index);
        self.put_byte(b' ');
        self.put_number(scale.factor());
        self.put_byte(b')');
    }

    fn put_displaced(&mut self, displacement: i8, base: u8)
        ensures { self.new ≡ clipped self.old (written (Argument.Displaced displacement base)) }
    {
        self.put_byte(b'(');
        self.put_number(displacement);
        self.put_byte(b' ');
        self.put_register(base);
        self.put_byte(b')');
    }

    fn put_argument(&mut self, argument: Argument)
        ensures { self.new ≡ clipped self.old (written argument) }
    {
        match argument {
            Argument::Register(number) => self.put_register(number),
            Argument::Number(n) => self.put_number(n),
            Argument::Scaled(base, index, scale) => self.put_scaled(base, index, scale),
            Argument::Displaced(displacement, base) => self.put_displaced(displacement, base),
        }
    }

    // An operand after a space.
    fn put_next(&mut self, argument: Argument)
        ensures { self.new ≡ clipped self.old (spaced argument) }
    {
        self.put_byte(b' ');
        self.put_argument(argument);
    }

    // The operands, each after a space.
    fn put_arguments(&mut self, arguments: Arguments)
        ensures { self.new ≡ clipped self.old (trailing arguments) }
    {
        match arguments {
            Arguments::Zero => self.put(b""),
            Arguments::One(a) => self.put_next(a),
            Arguments::Two(a, b) => {
                self.put_next(a);
                self.put_next(b);
            }
            Arguments::Three(a, b, c) => {
                self.put_next(a);
                self.put_next(b);
                self.put_next(c);
            }
        }
    }

    // The line of an opcode with the fields X, Y and Z.
    pub(crate) fn put_line(&mut self, opcode: Opcode, x: u8, y: u8, z: u8)
        ensures { self.new ≡ clipped self.old (line_with opcode x y z) }
    {
        self.put_byte(b'(');
        self.put(name(opcode));
        self.put_arguments(arguments_of(opcode, x, y, z));
        self.put_byte(b')');
    }
}
