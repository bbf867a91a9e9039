// A queue of bytes in a lent buffer, with constant work for each byte. The bytes lie from `start` on, and past the
// buffer's end on from its beginning. Nothing is shifted, and the place of a byte that left is free at once.
#![tactic(auto)]

ghost use Rattle.std.specs.Prelude.{◌≡◌, ◌+◌, ◌-◌, ◌≤◌, ◌++◌, length, take, drop};
ghost use Rattle.ring.specs.Queues.{size, turned, wrapped};
ghost use Rattle.ring.specs.Calls.{empty, push_says, after_push, pop_says, after_pop, append_says, after_append, take_says, after_take};

use std::marker::Model;

// Why no byte went in: the queue has fewer free places than there are new bytes.
#[derive(Clone, Copy, PartialEq, Eq, Debug)]
pub struct NoRoom;

// The buffer is lent and nothing is allocated, so the numbers of the queue stand beside it.
#[derive(Drop)]
pub struct Ring<'a> {
    bytes: &'a mut [u8],
    start: usize,
    len: usize,
}

// Clauses see the bytes in the queue, first to last, and how many more it has room for.
impl<'a> Model for Ring<'a> {
    ghost use Rattle.std.specs.Prelude.{◌-◌, ◌≤◌, length};
    ghost use Rattle.ring.specs.Queues.{Queue, queue};

    ghost Value = { Queue };

    ghost view = { λ r. queue r.bytes.now r.start r.len };

    ghost invariant = { λ r. (r.start ≤ length r.bytes.now - 1) × (r.len ≤ length r.bytes.now) };
}

// The place in a buffer of `total` bytes that lies `offset` past `start`, around the end. No remainder, which would be
// by 0 at an empty buffer.
fn place(start: usize, offset: usize, total: usize) -> usize
    requires start { start ≤ total - 1 }
    requires offset { offset ≤ total }
    ensures value { result ≡ wrapped (start + offset) total }
    ensures inside { result ≤ total - 1 }
{
    let ahead = total - start;
    if offset < ahead {
        start + offset
    } else {
        offset - ahead
    }
}

// Writes `more` into the buffer, from `at` on and around its end.
fn write_around(bytes: &mut [u8], at: usize, more: &[u8])
    requires at { at ≤ length bytes.old }
    requires fits { length more.now ≤ length bytes.old }
    ensures { turned bytes.new at ≡ more.now ++ drop (length more.now) (turned bytes.old at) }
{
    let (low, high) = bytes.split_at_mut(at);
    let (first, rest) = more.split_at(more.len().min(high.len()));
    high[..first.len()].copy_from_slice(first);
    low[..rest.len()].copy_from_slice(rest);
}

// Fills `into` from the buffer, from `at` on and around its end.
fn read_around(bytes: &[u8], at: usize, into: &mut [u8])
    requires at { at ≤ length bytes.now }
    requires fits { length into.old ≤ length bytes.now }
    ensures { into.new ≡ take (length into.old) (turned bytes.now at) }
{
    let (low, high) = bytes.split_at(at);
    let (first, rest) = into.split_at_mut(into.len().min(high.len()));
    first.copy_from_slice(&high[..first.len()]);
    rest.copy_from_slice(&low[..rest.len()]);
}

impl<'a> Ring<'a> {
    // An empty queue that can hold as many bytes as the buffer has.
    pub fn new(bytes: &'a mut [u8]) -> Ring<'a>
        ensures { result ≡ empty (length bytes.old) }
    {
        Ring {
            bytes,
            start: 0,
            len: 0,
        }
    }

    // One byte more at the end, where there is room.
    pub fn push(&mut self, byte: u8) -> Result<(), NoRoom>
        ensures answer { result ≡ push_says self.old }
        ensures after { self.new ≡ after_push self.old byte }
        ensures size { size self.new ≡ size self.old }
    {
        let size = self.bytes.len();
        if self.len >= size {
            return Err(NoRoom);
        }
        let at = place(self.start, self.len, size);
        self.bytes[at] = byte;
        self.len += 1;
        Ok(())
    }

    // Takes the first byte out, if there is one.
    pub fn pop(&mut self) -> Option<u8>
        ensures answer { result ≡ pop_says self.old }
        ensures after { self.new ≡ after_pop self.old }
        ensures size { size self.new ≡ size self.old }
    {
        if self.len == 0 {
            return None;
        }
        let byte = self.bytes[self.start];
        self.start = place(self.start, 1, self.bytes.len());
        self.len -= 1;
        Some(byte)
    }

    // All the bytes at the end, or none of them if they do not fit. That a queue has no more than it can hold is so of
    // any; the first clause says it again.
    pub fn append(&mut self, more: &[u8]) -> Result<(), NoRoom>
        ensures within { length self.old.items ≤ size self.old }
        ensures answer { result ≡ append_says self.old more.now }
        ensures after { self.new ≡ after_append self.old more.now }
        ensures size { size self.new ≡ size self.old }
    {
        let size = self.bytes.len();
        if more.len() > size - self.len {
            return Err(NoRoom);
        }
        let at = place(self.start, self.len, size);
        write_around(self.bytes, at, more);
        self.len += more.len();
        Ok(())
    }

    // Copies the first bytes into the buffer, as many as fit, and answers how many.
    fn peek(&self, into: &mut [u8]) -> usize
        ensures answer { result ≡ take_says self.now (length into.old) }
        ensures copied { into.new ≡ take result self.now.items ++ drop result into.old }
    {
        let count = into.len().min(self.len);
        read_around(self.bytes, self.start, &mut into[..count]);
        count
    }

    // Moves the first bytes into the buffer, as many as fit, and answers how many.
    pub fn take(&mut self, into: &mut [u8]) -> usize
        ensures answer { result ≡ take_says self.old (length into.old) }
        ensures after { self.new ≡ after_take self.old result }
        ensures size { size self.new ≡ size self.old }
        ensures moved { into.new ≡ take result self.old.items ++ drop result into.old }
    {
        let count = self.peek(into);
        self.start = place(self.start, count, self.bytes.len());
        self.len -= count;
        count
    }
}
