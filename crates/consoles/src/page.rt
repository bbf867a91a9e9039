// A console that has a lent document waiting and cannot be fed, with a lent buffer for the bytes that are put.
ghost use Rattle.std.specs.Prelude.{◌≡◌, length};
ghost use Rattle.consoles.specs.Pages.{page_view, new_page};

use crate::limits::usable;
use console::{Console, Full, ReadAnswer, Refusal};
use ring::Ring;

// What stands from `at` on in the document waits; its length is the input limit. A number beside the document, and not
// the part of it that is left: that no more waits than the document has is then so of every page by what it means. Two
// slices would have to be tied by a fact that whoever is lent a page does not see.
#[derive(Drop)]
pub struct Page<'d, 'o> {
    document: &'d [u8],
    at: usize,
    output: Ring<'o>,
}

impl<'d, 'o> Page<'d, 'o> {
    // The whole document waits, and no more can come; the lengths of the slices are its limits. Where `check` refuses
    // them, both are taken as empty.
    pub fn new(document: &'d [u8], output: &'o mut [u8]) -> Page<'d, 'o>
        ensures { page_view result ≡ new_page document.now (length output.old) }
    {
        let (most_in, most_out) = usable(document.len(), output.len());
        Page {
            document: &document[..most_in],
            at: 0,
            output: Ring::new(&mut output[..most_out]),
        }
    }
}

impl Console for Page<'_, '_> {
    ghost view = { λ p. page_view p };

    fn read(&mut self) -> ReadAnswer {
        let Some(&byte) = self.document.get(self.at) else {
            return ReadAnswer::End;
        };
        self.at += 1;
        ReadAnswer::Byte(byte)
    }

    fn put(&mut self, byte: u8) -> Result<(), Full> {
        self.output.push(byte).map_err(|_| Full)
    }

    fn feed(&mut self, _bytes: &[u8]) -> Result<(), Refusal> {
        Err(Refusal::Closed)
    }

    fn close(&mut self) -> Result<(), Refusal> {
        Err(Refusal::Closed)
    }

    fn take(&mut self, into: &mut [u8]) -> usize {
        self.output.take(into)
    }
}
