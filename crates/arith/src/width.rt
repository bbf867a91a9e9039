// The sizes of data, and how a number of one size is widened to 64 bits.
ghost use Rattle.std.specs.Prelude.{◌≡◌, ◌*◌, ◌%◌, ◌^◌};
ghost use Rattle.arith.specs.Whole.{signed, widened};
ghost use Rattle.arith.specs.Widths.{bytes_of};

// The sizes of data: byte, word, long word and quad word, of 1, 2, 4 and 8 bytes.
#[derive(Clone, Copy, PartialEq, Eq, Debug)]
pub enum Width {
    Byte,
    Word,
    Long,
    Quad,
}

// How a narrower number is widened to 64 bits.
#[derive(Clone, Copy, PartialEq, Eq, Debug)]
pub enum Extension {
    Zero,
    Sign,
}

impl Width {
    pub fn bytes(self) -> u8
        ensures { result ≡ bytes_of self }
    {
        match self {
            Width::Byte => 1,
            Width::Word => 2,
            Width::Long => 4,
            Width::Quad => 8,
        }
    }
}

// The value's low bytes, as many as the width has, widened to 64 bits.
pub fn widen(extension: Extension, width: Width, value: u64) -> u64
    ensures { result ≡ widened extension width (value % 2 ^ (8 * bytes_of width)) }
{
    match extension {
        Extension::Zero => low_bytes(width, value),
        Extension::Sign => signed_low_bytes(width, value).cast_unsigned(),
    }
}

fn low_bytes(width: Width, value: u64) -> u64
    ensures { result ≡ value % 2 ^ (8 * bytes_of width) }
{
    match width {
        Width::Byte => value % 0x100,
        Width::Word => value % 0x1_0000,
        Width::Long => value % 0x1_0000_0000,
        Width::Quad => value,
    }
}

// `as` keeps the low bits, which no `From` does.
fn signed_low_bytes(width: Width, value: u64) -> i64
    ensures { result ≡ signed (8 * bytes_of width) (value % 2 ^ (8 * bytes_of width)) }
{
    let low = low_bytes(width, value);
    match width {
        Width::Byte => i64::from((low as u8).cast_signed()),
        Width::Word => i64::from((low as u16).cast_signed()),
        Width::Long => i64::from((low as u32).cast_signed()),
        Width::Quad => low.cast_signed(),
    }
}
