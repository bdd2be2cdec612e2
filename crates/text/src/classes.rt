// Classes of bytes, and runs of one class.
ghost use Rattle.std.specs.Prelude.{◌≡◌, ◌-◌, take, drop};
ghost use Rattle.text.specs.Class.{in_class, all_of, run_of};

use crate::parts::part;

// The classes that the paper names for the bytes of a cell.
#[derive(Clone, Copy)]
pub enum Class {
    // 0-9
    Digit,
    // A-Z
    Capital,
    // A-Z 0-9
    CapitalDigit,
    // a-z A-Z 0-9
    Alphanumeric,
    // space to ~
    Printable,
    // A-Z #
    CapitalHash,
    // A-Z 0-9 -
    CapitalDigitMinus,
    // A-Z 0-9 + -
    CapitalDigitSign,
}

pub fn is_in(b: u8, class: Class) -> bool
    ensures { result ≡ in_class class b }
{
    match class {
        Class::Digit => b.is_ascii_digit(),
        Class::Capital => b.is_ascii_uppercase(),
        Class::CapitalDigit => b.is_ascii_uppercase() | b.is_ascii_digit(),
        Class::Alphanumeric => b.is_ascii_alphanumeric(),
        Class::Printable => matches!(b, b' '..=b'~'),
        Class::CapitalHash => b.is_ascii_uppercase() | (b == b'#'),
        Class::CapitalDigitMinus => b.is_ascii_uppercase() | b.is_ascii_digit() | (b == b'-'),
        Class::CapitalDigitSign => {
            b.is_ascii_uppercase() | b.is_ascii_digit() | (b == b'-') | (b == b'+')
        }
    }
}

// The loop goes on where a byte is of another class: without a way out it takes many bytes in one step.
pub fn all_of(s: &[u8], class: Class) -> bool
    ensures { result ≡ all_of class s.now }
{
    let mut good = true;
    for &b in s {
        good &= is_in(b, class);
    }
    good
}

// What stands from `start` up to `end` is all of one class.
pub fn all_within(s: &[u8], start: usize, end: usize, class: Class) -> bool
    ensures { result ≡ all_of class (take (end - start) (drop start s.now)) }
{
    all_of(part(s, start, end), class)
}

// From `least` to `most` bytes, all of one class.
pub fn run_of(s: &[u8], class: Class, least: usize, most: usize) -> bool
    ensures { result ≡ run_of class least most s.now }
{
    let n = s.len();
    (least <= n) && (n <= most) && all_of(s, class)
}
