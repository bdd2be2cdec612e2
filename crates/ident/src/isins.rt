// ISIN: the shape, and the double-add-double check of ISO 6166.
ghost use Rattle.std.specs.Prelude.{◌≡◌, ◌<◌, ◌%◌};
ghost use Rattle.ident.specs.Carried.{with_digit, with_digits};
ghost use Rattle.ident.specs.Codes.{double_add_double, isin_shaped, isin_right};
ghost use Rattle.ident.specs.Written.{digits_of, written_digits};

use crate::characters::value_of;
use text::Class;

// Read from the left it is open which digits will be doubled, so both sums are kept, by 10.
#[derive(Clone, Copy)]
struct Sums {
    // with the last digit as it is
    plain: u32,
    // with the last digit doubled
    twice: u32,
}

fn with_digit(x: Sums, d: u32) -> Sums
    requires { (x.plain < 10) × (x.twice < 10) × (d < 10) }
    ensures { result ≡ with_digit x d }
{
    Sums {
        plain: (x.twice + d) % 10,
        twice: (x.plain + (2 * d / 10 + 2 * d % 10)) % 10,
    }
}

fn with_value(x: Sums, value: u32) -> Sums
    requires { (x.plain < 10) × (x.twice < 10) × (value < 36) }
    ensures { result ≡ with_digits x (digits_of value) }
{
    if value < 10 {
        return with_digit(x, value);
    }
    with_digit(with_digit(x, value / 10), value % 10)
}

// Run by run: by its pattern (`text::shaped`) an ISIN was counted to take 199 instructions more.
pub fn isin_shaped(s: &[u8]) -> bool
    ensures { result ≡ isin_shaped s.now }
{
    if s.len() != 12 {
        return false;
    }
    text::all_within(s, 0, 2, Class::Capital)
        & text::all_within(s, 2, 11, Class::CapitalDigit)
        & text::all_within(s, 11, 12, Class::Digit)
}

// By 10, of the sum that the check takes: 0 where the check digit is right.
pub fn isin_remainder(s: &[u8]) -> u32
    ensures { result ≡ double_add_double (written_digits s.now) % 10 }
{
    let mut x = Sums { plain: 0, twice: 0 };
    for b in s {
        x = with_value(x, value_of(*b));
    }
    x.plain
}

pub fn isin_right(s: &[u8]) -> bool
    ensures { result ≡ isin_right s.now }
{
    isin_shaped(s) & (isin_remainder(s) == 0)
}
