// One rule over one document on two boxes that are built differently.
// The rule's key is the first byte of each line of its document, and then the low byte of the sum of all its bytes.
#![tactic(auto)]

use calls::{Call, Performed};
use consoles::page::Page;
use consoles::tray::Tray;
use machine::bank::Bank;
use machine::ending::Ending;
use machine::parts::Machine;
use memory::joined::Joined;
use std::alloc::{AllocError, Global};
use std::io;
use twin::both;

// The rule. Its work area is the 16 cells after it.
//
//   0  ldzwq 1, %5: a line begins
//   4  getc %1
//   8  subq 255, %1, %2
//  12  jz to the end
//  16  addq %1, %3, %3
//  20  movb %3, (80, %0)
//  24  addq 0, %5, %0
//  28  jz: no line begins
//  32  putc %1
//  36  ldzwq 0, %5
//  40  subq 10, %1, %2
//  44  jne to the getc
//  48  ldzwq 1, %5
//  52  jmp to the getc
//  56  the end: movzbq (80, %0), %4
//  60  putc %4
//  64  halt 7
//  68  nop
//  72  nop
//  76  nop
const RULE: &[u8; 80] = b"\
    \x56\x00\x01\x05\x60\x01\x00\x00\x39\xff\x01\x02\x42\x00\x00\x0b\
    \x30\x01\x03\x03\x2b\x03\x50\x00\x38\x00\x05\x00\x42\x00\x00\x03\
    \x61\x01\x00\x00\x56\x00\x00\x05\x39\x0a\x01\x02\x43\xff\xff\xf6\
    \x56\x00\x01\x05\x41\xff\xff\xf4\x1b\x50\x00\x04\x61\x04\x00\x00\
    \x09\x07\x00\x00\xff\x00\x00\x00\xff\x00\x00\x00\xff\x00\x00\x00";

const FIRST: &[u8] =
    b"Two boxes read one document.\nAnd each has its own way to read it.\nMemories of one may be joined from two.\n";

const SECOND: &[u8] =
    b"Pieces are fed to the other as they come.\nEvery key that they print is the same.\nDone.\n";

const WHOLE: &[u8] =
    b"Two boxes read one document.\nAnd each has its own way to read it.\nMemories of one may be joined from two.\nPieces are fed to the other as they come.\nEvery key that they print is the same.\nDone.\n";

// What a job came to: its key, the steps that it made, and the code that it halted with.
#[derive(Clone, Copy, PartialEq, Eq, Debug)]
struct Report {
    taken: usize,
    count: u64,
    code: Option<u8>,
}

// Gives a job up for what it came to.
fn settle(performed: Result<Performed, AllocError>) -> Result<Report, AllocError> {
    let Performed {
        job,
        answers: _,
        taken,
    } = performed?;
    let (numbers, ending) = job.give_up();
    let code = match ending {
        Some(Ending::Halt(code)) => Some(code),
        _ => None,
    };
    Ok(Report {
        taken,
        count: numbers.count,
        code,
    })
}

// The second box's calls: the document in two pieces, and a few hundred steps at a time.
fn by_and_by() -> [Call<'static>; 18] {
    [
        Call::Feed(FIRST),
        Call::Run(500),
        Call::Take(2),
        Call::Run(500),
        Call::Take(2),
        Call::Run(500),
        Call::Feed(SECOND),
        Call::Run(300),
        Call::Take(1),
        Call::Run(400),
        Call::Take(2),
        Call::Run(500),
        Call::Take(2),
        Call::Close,
        Call::Run(500),
        Call::Take(2),
        Call::Run(500),
        Call::Take(2),
    ]
}

// Runs the rule on both boxes. The keys go into the two buffers.
fn on_two_boxes(
    heap: Global,
    key: &mut [u8],
    other_key: &mut [u8],
) -> (Result<Performed, AllocError>, Result<Performed, AllocError>) {
    // one memory for the rule and its work, the whole document at once, and one run
    let mut cells = [0u8; 96];
    cells[..80].copy_from_slice(RULE);
    let mut memory = &mut cells[..];
    let mut output = [0u8; 64];
    let mut page = Page::new(WHOLE, &mut output);
    let mut bank = Bank::new();
    // the rule and its work in two memories that are joined, and small buffers
    let mut rule = *RULE;
    let mut work = [0u8; 16];
    let mut joined = Joined::new(&mut rule[..], &mut work[..]);
    let mut input_buffer = [0u8; 128];
    let mut output_buffer = [0u8; 2];
    let mut tray = Tray::new(&mut input_buffer, &mut output_buffer);
    let mut other_bank = Bank::new();
    let mut machine = Machine {
        bank: &mut bank,
        memory: &mut memory,
        console: &mut page,
    };
    let mut other = Machine {
        bank: &mut other_bank,
        memory: &mut joined,
        console: &mut tray,
    };
    both(
        heap,
        &mut machine,
        &[Call::Run(1_000_000), Call::Take(64)],
        key,
        &mut other,
        &by_and_by(),
        other_key,
    )
}

fn main(rt: HostRuntime) -> io::Result<()> {
    let out = rt.stdout();
    let mut key = [0u8; 64];
    let mut other_key = [0u8; 64];
    let (first, second) = on_two_boxes(rt.alloc(), &mut key, &mut other_key);
    let first = settle(first);
    let second = settle(second);
    let (first, second) = (first?, second?);
    let key = key.get(..first.taken).unwrap_or(&key);
    let other_key = other_key.get(..second.taken).unwrap_or(&other_key);
    println!(out;
        "one memory, one run: key {key:?}, {} steps, halt {:?}",
        first.count, first.code
    )?;
    println!(out;
        "joined, in pieces:   key {other_key:?}, {} steps, halt {:?}",
        second.count, second.code
    )?;
    if key == other_key && first == second {
        println!(out; "the same key, count and ending")
    } else {
        println!(out; "not the same")
    }
}
