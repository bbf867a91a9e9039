// Numbers with a sign as words.
ghost use Rattle.std.specs.Prelude.{◌≡◌, ℤ};
ghost use Rattle.arith.specs.Whole.{word};

// The word that holds a number of any type whose values all fit 64 bits with a sign.
pub fn word_of<N: Into<i64>>(number: N) -> u64
    ensures { (n : ℤ) × N.converts number n × (result ≡ word n) }
{
    in_complement(number.into())
}

// The number in two's complement.
fn in_complement(number: i64) -> u64
    ensures { result ≡ word number }
{
    number.cast_unsigned()
}
