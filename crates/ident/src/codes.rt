// LEI and MIC.
ghost use Rattle.std.specs.Prelude.{◌≡◌, ◌+◌, ◌*◌, ◌^◌, ◌%◌, ◌<◌, ◌≤◌, length, take, drop};
ghost use Rattle.ident.specs.Codes.{lei_shaped, lei_right, mic_shaped};
ghost use Rattle.ident.specs.Written.{value_of, digits_of, written_digits, decimal, written};

use crate::characters::added_value;
use text::Class;

// A LEI and a MIC are asked run by run: by its pattern (`text::shaped`) a MIC was counted to take 16 instructions more, and an ISIN 199.
pub fn lei_shaped(s: &[u8]) -> bool
    ensures { result ≡ lei_shaped s.now }
{
    if s.len() != 20 {
        return false;
    }
    text::all_within(s, 0, 18, Class::CapitalDigit) & text::all_within(s, 18, 20, Class::Digit)
}

pub fn mic_shaped(s: &[u8]) -> bool
    ensures { result ≡ mic_shaped s.now }
{
    if s.len() != 4 {
        return false;
    }
    text::all_within(s, 0, 4, Class::CapitalDigit)
}

// The number with the digits of a character behind k: a letter writes two. In 64 bits there is room for 17 digits behind a
// remainder by 97, so for these behind 15 of them.
fn behind(k: u64, b: u8) -> u64
    requires { k < 97 * 10 ^ 15 }
    ensures { result ≡ decimal k (digits_of (value_of b)) }
{
    let value = added_value(b) as u64;
    if value < 10 {
        return k * 10 + value;
    }
    k * 100 + value
}

// With those of two characters from a place on: 4 digits at most, behind 13.
fn with_two(k: u64, s: &[u8], at: usize) -> u64
    requires { (k < 97 * 10 ^ 13) × (at + 2 ≤ length s.now) }
    ensures { result ≡ decimal k (written_digits (take 2 (drop at s.now))) }
{
    behind(behind(k, s[at]), s[at + 1])
}

// With those of four: 8 at most, behind 9. Each is two of the one before, and the bound of its `requires` goes down with it: the number of characters
// as a parameter would be a loop where straight line is wanted.
fn with_four(k: u64, s: &[u8], at: usize) -> u64
    requires { (k < 97 * 10 ^ 9) × (at + 4 ≤ length s.now) }
    ensures { result ≡ decimal k (written_digits (take 4 (drop at s.now))) }
{
    with_two(with_two(k, s, at), s, at + 2)
}

// With those of the last characters, 16 at most: of four at once, which are what a LEI has left, and then one by one.
fn with_last(k: u64, s: &[u8]) -> u64
    requires { (k < 97) × (length s.now ≤ 8) }
    ensures { result ≡ decimal k (written_digits s.now) }
{
    let mut v = k;
    let mut start = 0;
    if 4 <= s.len() {
        v = with_four(k, s, 0);
        start = 4;
    }
    for i in start..s.len() {
        v = behind(v, s[i]);
    }
    v
}

// By 97, of the number that the characters write. One division takes eight of them: they are 16 digits at most, and nine
// could be 18. Counted by eights, since the law of what is left (`left_on`) is over places.
pub fn lei_remainder(s: &[u8]) -> u32
    ensures { result ≡ written s.now % 97 }
{
    let eights = s.len() / 8;
    let mut k: u64 = 0;
    for n in 0..eights {
        k = with_four(with_four(k, s, 8 * n), s, 8 * n + 4) % 97;
    }
    (with_last(k, text::rest(s, 8 * eights)) % 97) as u32
}

pub fn lei_right(s: &[u8]) -> bool
    ensures { result ≡ lei_right s.now }
{
    lei_remainder(s) == 1
}
