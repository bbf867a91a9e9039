// What is refused before a memory is made.
ghost use Rattle.std.specs.Prelude.{◌≡◌, ◌<◌, ◌≤◌, length, MatchResult};
ghost use Rattle.memory.specs.Refusals.{number};

use crate::cells::MOST_CELLS;

#[derive(Clone, Copy, PartialEq, Eq, Debug)]
pub enum Refusal {
    // a slice has more bytes than a memory has cells
    TooLarge,
}

impl Refusal {
    // The number that the refused call hands back. It has a name: `u8::from` would not say what number it is.
    pub fn number(self) -> u8
        ensures { result ≡ number self }
    {
        match self {
            Refusal::TooLarge => 4,
        }
    }
}

// Whether a slice may be a memory. One that is refused here is taken as empty if it is made a memory all the same.
pub fn check(bytes: &[u8]) -> Result<(), Refusal>
    ensures { MatchResult result (λ _. length bytes.now ≤ 65536) (λ e. (65536 < length bytes.now) × (number e ≡ 4)) }
{
    if bytes.len() <= MOST_CELLS {
        Ok(())
    } else {
        Err(Refusal::TooLarge)
    }
}
