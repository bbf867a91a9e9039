// What a machine and its caller ask of a console: bytes to read, bytes to hold.
#![tactic(auto)]

ghost use Rattle.std.specs.Prelude.{◌≡◌, ◌++◌, length, take, drop};
ghost use Rattle.console.specs.Refusals.{numbered};
ghost use Rattle.console.specs.Streams.{Con, read_says, after_read, put_says, after_put, feed_says, after_feed, close_says, after_close, take_says, after_take};

// What a read says: a byte, that no more will come, or that none has come yet. Three answers, each with its name: the
// end is no error, since a machine goes on at it, and an Option in a Poll would not say which nothing is which.
#[derive(Clone, Copy, PartialEq, Eq, Debug)]
pub enum ReadAnswer {
    Byte(u8),
    End,
    NotYet,
}

// Why a byte is not put: the held ones are as many as the output limit.
#[derive(Clone, Copy, PartialEq, Eq, Debug)]
pub struct Full;

// Why a call is refused: the input is closed, there are more bytes than space, or a slice is above 65,536 bytes. Clauses
// tell refusals by numbers, since those are one list for the calls of all crates.
#[derive(Clone, Copy, PartialEq, Eq, Debug)]
pub enum Refusal {
    Closed,
    NoSpace,
    TooLong,
}

pub trait Console {
    // What the console means. Each call below says what it answers and what the console then means.
    ghost view: { Self → Con };

    // Takes the first waiting byte; with none, says whether more can come.
    fn read(&mut self) -> ReadAnswer
        ensures answer { result ≡ read_says (view self.old) }
        ensures after { view self.new ≡ after_read (view self.old) };

    // Appends a byte to the held ones, while they are fewer than the output limit.
    fn put(&mut self, byte: u8) -> Result<(), Full>
        ensures answer { result ≡ put_says (view self.old) }
        ensures after { view self.new ≡ after_put (view self.old) byte };

    // Appends all the bytes to those waiting.
    fn feed(&mut self, bytes: &[u8]) -> Result<(), Refusal>
        ensures answer { numbered result ≡ feed_says (view self.old) bytes.now }
        ensures after { view self.new ≡ after_feed (view self.old) bytes.now };

    // Closes the input for good.
    fn close(&mut self) -> Result<(), Refusal>
        ensures answer { numbered result ≡ close_says (view self.old) }
        ensures after { view self.new ≡ after_close (view self.old) };

    // Moves the first held bytes into the buffer, as many as fit, and answers how many.
    fn take(&mut self, into: &mut [u8]) -> usize
        ensures answer { result ≡ take_says (view self.old) (length into.old) }
        ensures after { view self.new ≡ after_take (view self.old) result }
        ensures moved { into.new ≡ take result (view self.old).held ++ drop result into.old };
}
