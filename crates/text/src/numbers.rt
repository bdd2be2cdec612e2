// Numbers written in decimal digits, and numbers of two and four bytes, least byte first.
ghost use Rattle.std.specs.Prelude.{◌≡◌, ◌++◌, ◌+◌, ◌<◌, ◌≤◌, ◌^◌, ◌-◌, length, drop};
ghost use Rattle.text.specs.Number.{digit_of, numeral, number_of, two_digits, four_digits, eight_digits, first_bytes, little_endian};

use crate::classes::{Class, is_in};
use crate::parts::{byte_at, rest};
use std::array;

// What a byte counts as a digit: 0 where it is none.
#[tactic(auto, using(crate::proofs::NumberLaws::digit_yes), unfolding(crate::specs::Number::digit_of))]
pub fn digit_of(b: u8) -> u32
    ensures { result ≡ digit_of b }
{
    if is_in(b, Class::Digit) {
        return u32::from(b - b'0');
    }
    0
}

// The digits of s written on behind those that stand for k.
fn written_on(k: u64, s: &[u8]) -> u64
    requires { (length s.now ≤ 18) × (k < 10 ^ (18 - length s.now)) }
    ensures { result ≡ numeral k s.now }
{
    let mut v = k;
    for &b in s {
        v = v * 10 + u64::from(digit_of(b));
    }
    v
}

// The number that at most 18 digits write; 0 where there are more.
pub fn number_in(s: &[u8]) -> u64
    ensures { result ≡ number_of s.now }
{
    if 18 < s.len() {
        return 0;
    }
    written_on(0, s)
}

// The number that two rows of digits write, one behind the other.
pub fn joined_number(s: &[u8], t: &[u8]) -> u64
    ensures { result ≡ number_of (s.now ++ t.now) }
{
    if 18 < s.len() + t.len() {
        return 0;
    }
    written_on(written_on(0, s), t)
}

// The first two, four and eight digits, as dates and times have them. Each is two of the one before, as in specs/: with
// the size as a parameter the power of ten would be one too, which is no plainer.
#[tactic(auto, using(crate::proofs::NumberLaws::digit_small), unfolding(crate::specs::Number::two_digits))]
pub fn two_digits(s: &[u8]) -> u32
    ensures { result ≡ two_digits s.now }
{
    digit_of(byte_at(s, 0)) * 10 + digit_of(byte_at(s, 1))
}

#[tactic(auto, using(crate::proofs::NumberLaws::two_small), unfolding(crate::specs::Number::four_digits))]
pub fn four_digits(s: &[u8]) -> u32
    ensures { result ≡ four_digits s.now }
{
    two_digits(s) * 100 + two_digits(rest(s, 2))
}

#[tactic(auto, using(crate::proofs::NumberLaws::four_small), unfolding(crate::specs::Number::eight_digits))]
pub fn eight_digits(s: &[u8]) -> u32
    ensures { result ≡ eight_digits s.now }
{
    four_digits(s) * 10000 + four_digits(rest(s, 4))
}

// The N bytes from a place on, 0 where one is missing.
fn bytes_from<const N: usize>(s: &[u8], at: usize) -> [u8; N]
    ensures { result ≡ first_bytes N (drop at s.now) }
{
    let t = rest(s, at);
    array::from_fn(|i| byte_at(t, i))
}

// The number that two bytes from a place on write, and that four write.
#[tactic(auto, using(crate::proofs::ByteLaws::two_read))]
pub fn le16(s: &[u8], at: usize) -> u16
    ensures { result ≡ little_endian 2 (drop at s.now) }
{
    u16::from_le_bytes(bytes_from(s, at))
}

#[tactic(auto, using(crate::proofs::ByteLaws::four_read))]
pub fn le32(s: &[u8], at: usize) -> u32
    ensures { result ≡ little_endian 4 (drop at s.now) }
{
    u32::from_le_bytes(bytes_from(s, at))
}
