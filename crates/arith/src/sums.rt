// Additions and subtractions, with the flags that they set.
ghost use Rattle.std.specs.Prelude.{◌≡◌, ◌*◌, ◌+ℤ◌, ◌-ℤ◌};
ghost use Rattle.arith.specs.Flags.{negative, outside, sum_flags, difference_flags, sum_with_flags};
ghost use Rattle.arith.specs.Whole.{s, sum, sum_with, difference};

use crate::flags::Flags;

// Whether b + a, both read with a sign, does not fit, and whether it is below 0. The word for a sum that does not fit
// has another sign than the sum.
fn signed_sum(b: u64, a: u64) -> (bool, bool)
    ensures { result ≡ (outside (s b +ℤ s a), negative (s b +ℤ s a)) }
{
    let (sum, overflow) = b.cast_signed().overflowing_add(a.cast_signed());
    (overflow, (sum < 0) != overflow)
}

// The same two of b - a.
fn signed_difference(b: u64, a: u64) -> (bool, bool)
    ensures { result ≡ (outside (s b -ℤ s a), negative (s b -ℤ s a)) }
{
    let (b, a) = (b.cast_signed(), a.cast_signed());
    (b.overflowing_sub(a).1, b < a)
}

// b + a.
#[tactic(auto, unfolding(crate::specs::Flags::sum_flags, crate::specs::Flags::sum_with_flags))]
pub fn add(b: u64, a: u64) -> (u64, Flags)
    ensures { result ≡ (sum b a, sum_flags b a) }
{
    add_with(b, a, false)
}

// b - a.
#[tactic(auto, unfolding(crate::specs::Flags::difference_flags))]
pub fn subtract(b: u64, a: u64) -> (u64, Flags)
    ensures { result ≡ (difference b a, difference_flags b a) }
{
    let (difference, carry) = b.overflowing_sub(a);
    let (overflow, sign) = signed_difference(b, a);
    let flags = Flags {
        zero: b == a,
        carry,
        overflow,
        sign,
    };
    (difference, flags)
}

// b + a, and one more if the old zero flag is set.
#[tactic(auto, unfolding(crate::specs::Flags::sum_with_flags))]
pub fn add_with(b: u64, a: u64, old: bool) -> (u64, Flags)
    ensures { result ≡ (sum_with b a old, sum_with_flags b a old) }
{
    let (sum, carry) = b.carrying_add(a, old);
    let (overflow, sign) = signed_sum(b, a.wrapping_add(u64::from(old)));
    let flags = Flags {
        zero: b == 0 && a == 0 && !old,
        carry,
        overflow,
        sign,
    };
    (sum, flags)
}

// b + 3 × x.
pub fn add_triple(b: u64, x: u8) -> (u64, Flags)
    ensures { result ≡ (sum b (3 * x), sum_flags b (3 * x)) }
{
    add(b, 3 * u64::from(x))
}
