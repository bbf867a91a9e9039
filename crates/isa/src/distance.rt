// How far a jump goes.
ghost use Rattle.std.specs.Prelude.{◌≡◌, pos, ◌*ℤ◌, slice_index};
ghost use Rattle.isa.specs.Distances.{words_of};
ghost use Rattle.isa.specs.Words.{distance_of};

// A number of words of four bytes, a signed number of 24 bits. It is held as its high byte and its low 16 bits, so
// that every value has room in a word.
#[derive(Clone, Copy, PartialEq, Eq, Debug)]
pub struct Distance {
    pub high: i8,
    pub low: u16,
}

impl Distance {
    // How many words it is.
    pub fn words(self) -> i32
        ensures { result ≡ words_of self }
    {
        i32::from(self.high) * 65536 + i32::from(self.low)
    }

    // How many bytes it is.
    pub fn bytes(self) -> i32
        ensures { result ≡ words_of self *ℤ pos 4 }
    {
        self.words() * 4
    }
}

// From its three bytes, the high one first.
impl From<[u8; 3]> for Distance {
    ghost from_gives = { λ bytes d. d ≡ distance_of (slice_index bytes 0) (slice_index bytes 1) (slice_index bytes 2) };

    fn from(bytes: [u8; 3]) -> Distance {
        let [x, y, z] = bytes;
        Distance {
            high: x.cast_signed(),
            low: u16::from_be_bytes([y, z]),
        }
    }
}
