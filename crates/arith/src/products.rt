// Multiplications and divisions.
ghost use Rattle.std.specs.Prelude.{◌≡◌};
ghost use Rattle.arith.specs.Whole.{word, product, divided, divided_signed};

use crate::signs::word_of;

// b × a.
pub fn multiply(b: u64, a: u64) -> u64
    ensures { result ≡ product b a }
{
    b.wrapping_mul(a)
}

// b × x, x widened by its sign.
pub fn multiply_by_byte(b: u64, x: i8) -> u64
    ensures { result ≡ product b (word x) }
{
    multiply(b, word_of(x))
}

// Quotient and remainder of b by a, without a sign; none where a is 0.
pub fn divide(b: u64, a: u64) -> Option<(u64, u64)>
    ensures { result ≡ divided b a }
{
    Some((b.checked_div(a)?, b.checked_rem(a)?))
}

// Quotient and remainder of b by a, with a sign; none where a is 0.
pub fn divide_signed(b: u64, a: u64) -> Option<(u64, u64)>
    ensures { result ≡ divided_signed b a }
{
    (a != 0).then(|| {
        let (dividend, divisor) = (b.cast_signed(), a.cast_signed());
        let quotient = dividend.wrapping_div(divisor);
        let remainder = dividend.wrapping_rem(divisor);
        (word_of(quotient), word_of(remainder))
    })
}
