// Operations bit by bit, and shifts.
ghost use Rattle.std.specs.Prelude.{◌≡◌, bit_and, bit_or};
ghost use Rattle.arith.specs.Whole.{complemented, shifted_left, shifted_right, shifted_right_signed, shifted_in};

use crate::signs::word_of;

pub fn or(b: u64, a: u64) -> u64
    ensures { result ≡ bit_or b a }
{
    b | a
}

pub fn and(b: u64, a: u64) -> u64
    ensures { result ≡ bit_and b a }
{
    b & a
}

pub fn complement(a: u64) -> u64
    ensures { result ≡ complemented a }
{
    !a
}

// b shifted to the left by a places; 0 from 64 places up.
#[tactic(auto, using(crate::proofs::Shifts::far_left))]
pub fn shift_left(b: u64, a: u64) -> u64
    ensures { result ≡ shifted_left b a }
{
    if a < 64 { b << a } else { 0 }
}

// b shifted to the right by a places; 0 from 64 places up.
#[tactic(auto, using(crate::proofs::Shifts::far_right))]
pub fn shift_right(b: u64, a: u64) -> u64
    ensures { result ≡ shifted_right b a }
{
    if a < 64 { b >> a } else { 0 }
}

// b shifted to the right by a places, with copies of bit 63 put in; nothing but those from 64 places up.
#[tactic(auto, using(crate::proofs::Shifts::near_signed))]
pub fn shift_right_signed(b: u64, a: u64) -> u64
    ensures { result ≡ shifted_right_signed b a }
{
    word_of(b.cast_signed() >> a.min(63))
}

// The bits of z moved up by 16, with 16 more below them.
pub fn shift_in(z: u64, value: u16) -> u64
    ensures { result ≡ shifted_in z value }
{
    (z << 16) + word_of(value)
}
