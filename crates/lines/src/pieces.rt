// A line cut at its spaces and brackets, and what its pieces say.
ghost use Rattle.std.specs.Prelude.{◌≡◌, ◌%◌};
ghost use Rattle.lines.specs.Pieces.{separates, pieces, piece, starts, digits_after, register_value, number_value};

use std::marker::Model;

fn is_separator(byte: u8) -> bool
    ensures { result ≡ separates byte }
{
    matches!(byte, b' ' | b'(' | b')')
}

// The pieces of a text: the parts between its separators, the empty ones too.
#[derive(Drop)]
pub(crate) struct Pieces<'a> {
    text: &'a [u8],
}

impl<'a> Model for Pieces<'a> {
    ghost use Rattle.std.specs.Prelude.{ℕ, List};
    ghost use Rattle.lines.specs.Pieces.{pieces};

    ghost Value = { List (List ℕ) };

    ghost view = { λ p. pieces p.text.now };
}

impl<'a> Pieces<'a> {
    pub(crate) fn of(text: &'a [u8]) -> Pieces<'a>
        ensures { result ≡ pieces text.now }
    {
        Pieces { text }
    }

    // The piece with an index, counted from 0; empty where there is none.
    pub(crate) fn at(&self, index: usize) -> &'a [u8]
        ensures { result.now ≡ piece self.now index }
    {
        self.text
            .split(|byte| is_separator(*byte))
            .nth(index)
            .unwrap_or(&[])
    }

    pub(crate) fn starts(&self, index: usize, byte: u8) -> bool
        ensures { result ≡ starts (piece self.now index) byte }
    {
        self.at(index).first() == Some(&byte)
    }

    // What a piece says as a register.
    pub(crate) fn register(&self, index: usize) -> u8
        ensures { result ≡ register_value (piece self.now index) }
    {
        match self.at(index) {
            [b'%', number @ ..] => (digits(number) % 256) as u8,
            _ => 0,
        }
    }

    // What a piece says as a number with a sign: its bits.
    pub(crate) fn number(&self, index: usize) -> u32
        ensures { result ≡ number_value (piece self.now index) }
    {
        match self.at(index) {
            [b'-', number @ ..] => digits(number).wrapping_neg(),
            number => digits(number),
        }
    }

    pub(crate) fn byte(&self, index: usize) -> u8
        ensures { result ≡ number_value (piece self.now index) % 256 }
    {
        (self.number(index) % 256) as u8
    }
}

// The number that digits write. Not by parse, which refuses: here each text may give a number, since the line of the
// word that comes out is compared in the end.
fn digits(text: &[u8]) -> u32
    ensures { result ≡ digits_after 0 text.now }
{
    text.iter().fold(
        0u32,
        |n, c| n
            .wrapping_mul(10)
            .wrapping_add(u32::from(c.wrapping_sub(b'0'))),
    )
}
