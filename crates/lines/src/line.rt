// A line of text.
ghost use Rattle.std.specs.Prelude.{◌≡◌, ◌≤◌, [], ◌∷◌, length};
ghost use Rattle.lines.specs.Texts.{clipped};

use arrayvec::ArrayVec;
use std::marker::Model;

mod puts;

// A line is seen as its text. There is room for 64 bytes; the longest, (movzlq (%255 %255 8) %255), has 27.
#[derive(Drop)]
pub struct Line {
    text: ArrayVec<u8, 64>,
}

impl Model for Line {
    ghost use Rattle.std.specs.Prelude.{ℕ, List};

    ghost Value = { List ℕ };

    ghost view = { λ l. l.text.items };
}

impl Line {
    pub(crate) fn new() -> Line
        ensures { result ≡ [] }
    {
        Line {
            text: ArrayVec::new(),
        }
    }

    // The text of the line.
    pub fn as_slice(&self) -> &[u8]
        ensures text { result.now ≡ self.now }
        ensures short { length result.now ≤ 64 }
    {
        self.text.as_slice()
    }

    // Puts one byte at the end, where it has room: for a byte by itself that is much cheaper than a text of one.
    pub(crate) fn put_byte(&mut self, byte: u8)
        ensures { self.new ≡ clipped self.old (byte ∷ []) }
    {
        let _fits = self.text.try_push(byte);
    }

    // Puts a text at the end; what has no room is left out.
    pub(crate) fn put(&mut self, text: &[u8])
        ensures { self.new ≡ clipped self.old text.now }
    {
        let room = self.text.remaining_capacity().min(text.len());
        // What has room always fits.
        let _fits = self.text.try_extend_from_slice(&text[..room]);
    }
}
