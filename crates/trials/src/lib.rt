// Worked values that the check proves.
#![tactic(auto)]

ghost use Rattle.std.specs.Prelude.{◌≡◌};
ghost use Rattle.trials.specs.Values.{words, TrialValues};

// The words of the worked values. The contract has the whole list of them, of words and of arithmetic.
pub fn trial_words() -> [[u8; 4]; 6]
    ensures words { result ≡ words }
    ensures values { TrialValues }
{
    [
        [0x30, 0x01, 0x02, 0xFF],
        [0x18, 0xF8, 0x02, 0x03],
        [0x41, 0xFF, 0xFF, 0xFE],
        [0x3C, 0x80, 0x02, 0x03],
        [0xFF, 0x00, 0x00, 0x01],
        [0x32, 0x01, 0x02, 0x03],
    ]
}
