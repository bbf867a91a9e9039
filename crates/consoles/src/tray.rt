// A console over two lent buffers, one for the bytes that it is fed and one for those that are put.
ghost use Rattle.std.specs.Prelude.{◌≡◌, length};
ghost use Rattle.consoles.specs.Trays.{tray_view, new_tray};

use crate::limits::usable;
use console::{Console, Full, ReadAnswer, Refusal};
use ring::Ring;

#[derive(Drop)]
pub struct Tray<'i, 'o> {
    input: Ring<'i>,
    output: Ring<'o>,
    closed: bool,
}

impl<'i, 'o> Tray<'i, 'o> {
    // Open and empty; the lengths of the buffers are its limits. Where `check` refuses them, both are taken as empty.
    pub fn new(input: &'i mut [u8], output: &'o mut [u8]) -> Tray<'i, 'o>
        ensures { tray_view result ≡ new_tray (length input.old) (length output.old) }
    {
        let (most_in, most_out) = usable(input.len(), output.len());
        Tray {
            input: Ring::new(&mut input[..most_in]),
            output: Ring::new(&mut output[..most_out]),
            closed: false,
        }
    }
}

impl Console for Tray<'_, '_> {
    ghost view = { λ t. tray_view t };

    fn read(&mut self) -> ReadAnswer {
        match self.input.pop() {
            Some(byte) => ReadAnswer::Byte(byte),
            None if self.closed => ReadAnswer::End,
            None => ReadAnswer::NotYet,
        }
    }

    // A page puts and takes by the same two calls on its ring; a type for both would have their reading, feeding and
    // closing as parameters, and be longer than these two lines.
    fn put(&mut self, byte: u8) -> Result<(), Full> {
        self.output.push(byte).map_err(|_| Full)
    }

    fn feed(&mut self, bytes: &[u8]) -> Result<(), Refusal> {
        if self.closed {
            return Err(Refusal::Closed);
        }
        self.input.append(bytes).map_err(|_| Refusal::NoSpace)
    }

    fn close(&mut self) -> Result<(), Refusal> {
        if self.closed {
            return Err(Refusal::Closed);
        }
        self.closed = true;
        Ok(())
    }

    fn take(&mut self, into: &mut [u8]) -> usize {
        self.output.take(into)
    }
}
