// The line of a word, and the word of a line.
ghost use Rattle.isa.specs.Words.{decoded};
ghost use Rattle.lines.specs.Lines.{WritesWord, ReadsWord, LinesDiffer};

use crate::reading::read_line;
use crate::writing::{LineRefusal, write_line};
use isa::word::{decode, encode};

// Writes the line of a word and answers its length; the rest of the buffer is left. A word that is not legal is
// refused with 12, and then a buffer that is too short with 11; nothing is written.
pub fn write_word(word: [u8; 4], buffer: &mut [u8]) -> Result<usize, LineRefusal>
    ensures { WritesWord (decoded word) buffer.old result buffer.new }
{
    let instruction = decode(word).ok_or(LineRefusal::NotLegal)?;
    write_line(instruction, buffer)
}

// The legal word whose line a text is; none where it is the line of none.
pub fn read_word(text: &[u8]) -> Option<[u8; 4]>
    ensures reads { ReadsWord text.now result }
    ensures differ { LinesDiffer }
{
    Some(encode(read_line(text)?))
}
