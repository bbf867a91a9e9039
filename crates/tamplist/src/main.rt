// Prints the listing of an image: raw bytes on standard input, lines on standard output.
#![tactic(auto)]

use disassembler::disassemble;
use std::io;
use std::io::{Read, Write};

// One byte above the most that an image has, so that a larger one is told from it.
const ENOUGH: u64 = 65537;

// Room for that, and for one byte more, so that the room never has to grow.
const ROOM: usize = 65538;

fn main(rt: HostRuntime) -> io::Result<()> {
    let mut image = Vec::with_capacity(rt.alloc(), ROOM)?;
    rt.stdin().take(ENOUGH).read_to_end(&mut image)?;
    let listing = disassemble(rt.alloc(), &image)?;
    rt.stdout().write_all(&listing)
}
