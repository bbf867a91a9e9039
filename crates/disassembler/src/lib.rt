// The listing of an image: raw bytes as the lines that place them.
#![tactic(auto)]

ghost use Rattle.std.specs.Prelude.{◌≡◌, ◌++◌, IfOk, codes, OnOk};
ghost use Rattle.lines.specs.Lines.{line_of};
ghost use Rattle.disassembler.specs.Listings.{byte_line, byte_lines, word_lines, listing_of, printed};

use isa::instruction::Instruction;
use isa::word::decode;
use lines::writing::line;
use std::alloc::{AllocError, Global};

// The most bytes of an image.
const MOST: usize = 65536;

// The line that places one byte.
fn put_byte(out: &mut Vec<u8>, byte: u8) -> Result<(), AllocError>
    ensures { OnOk result (out.new.items ≡ out.old.items ++ byte_line byte) }
{
    let line = format!(in *out.allocator(); "(byte {byte})\n")?;
    out.extend_from_slice(line.as_bytes())
}

fn put_bytes(out: &mut Vec<u8>, bytes: &[u8]) -> Result<(), AllocError>
    ensures { OnOk result (out.new.items ≡ out.old.items ++ byte_lines bytes.now) }
{
    for byte in bytes {
        put_byte(out, *byte)?;
    }
    Ok(())
}

fn put_line(out: &mut Vec<u8>, instruction: Instruction) -> Result<(), AllocError>
    ensures { OnOk result (out.new.items ≡ out.old.items ++ line_of instruction ++ codes "\n") }
{
    let line = line(instruction);
    out.extend_from_slice(line.as_slice())?;
    out.extend_from_slice(b"\n")
}

// The line of a word, or the lines of its bytes where it is not legal.
fn put_word(out: &mut Vec<u8>, word: [u8; 4]) -> Result<(), AllocError>
    ensures { OnOk result (out.new.items ≡ out.old.items ++ word_lines word) }
{
    match decode(word) {
        Some(instruction) => put_line(out, instruction),
        None => put_bytes(out, &word),
    }
}

// The text that is printed of an image: its listing, or the refusal of one above 65,536 bytes. Fails only for want of
// memory.
pub fn disassemble(heap: Global, image: &[u8]) -> Result<Vec<u8>, AllocError>
    ensures { IfOk result (λ v. v.items ≡ printed image.now) }
{
    let mut out = Vec::new(heap);
    if image.len() > MOST {
        out.extend_from_slice(b"(refused 4 (line 0))\n")?;
    } else {
        put_listing(&mut out, image)?;
    }
    Ok(out)
}

#[tactic(auto, using(crate::proofs::Steps::all_listed))]
fn put_listing(out: &mut Vec<u8>, image: &[u8]) -> Result<(), AllocError>
    ensures { OnOk result (out.new.items ≡ out.old.items ++ listing_of image.now) }
{
    let (words, rest) = image.as_chunks();
    for word in words {
        put_word(out, *word)?;
    }
    put_bytes(out, rest)
}
