// The dates that cells hold.
ghost use Rattle.std.specs.Prelude.{◌≡◌, true, drop};
ghost use Rattle.text.specs.Ascii.{ascii};
ghost use Rattle.text.specs.Number.{two_digits};
ghost use Rattle.text.specs.Shape.{shape};
ghost use Rattle.calendar.specs.Dates.{day_written, date_of, is_date};
ghost use Rattle.calendar.specs.Places.{digits_at, pair_at, date_places};

use crate::days::is_day;
use text::Class;

// The two digits at a place where there are digits. A digit is 48 more than it counts, so together they are 11 times 48 more.
#[tactic(auto, using(crate::proofs::PlaceLaws::two_within, crate::proofs::PlaceLaws::first_small, crate::proofs::PlaceLaws::second_small, crate::proofs::PlaceLaws::two_are))]
pub fn two_at(s: &[u8], at: usize) -> u32
    requires { pair_at at s.now ≡ true }
    ensures { result ≡ two_digits (drop at s.now) }
{
    s[at] as u32 * 10 + s[at + 1] as u32 - 528
}

// The day that the digits of yyyy-mm-dd write.
#[tactic(auto, using(crate::proofs::PlaceLaws::century_there, crate::proofs::PlaceLaws::year_there, crate::proofs::PlaceLaws::month_there, crate::proofs::PlaceLaws::day_there, text::proofs::NumberLaws::two_small), unfolding(crate::specs::Dates::day_written, text::specs::Number::four_digits))]
pub fn day_written(s: &[u8]) -> u32
    requires { digits_at date_places s.now ≡ true }
    ensures { result ≡ day_written s.now }
{
    (two_at(s, 0) * 100 + two_at(s, 2)) * 10000 + two_at(s, 5) * 100 + two_at(s, 8)
}

// yyyy-mm-dd, of a real day or not: run by run, with no way out at a byte.
fn is_written(s: &[u8]) -> bool
    ensures { result ≡ shape (ascii "dddd-dd-dd") s.now }
{
    if s.len() != 10 {
        return false;
    }
    text::all_within(s, 0, 4, Class::Digit)
        & (s[4] == b'-')
        & text::all_within(s, 5, 7, Class::Digit)
        & (s[7] == b'-')
        & text::all_within(s, 8, 10, Class::Digit)
}

// The day that a date cell writes, as yyyymmdd.
pub fn parse_date(s: &[u8]) -> Option<u32>
    ensures { result ≡ date_of s.now }
{
    if !is_written(s) {
        return None;
    }
    let day = day_written(s);
    is_day(day).then_some(day)
}

// The cell writes a day.
pub fn is_date(date: Option<u32>) -> bool
    ensures { result ≡ is_date date }
{
    date.is_some()
}
