// The moments that a cell holds and that a line is submitted at.
ghost use Rattle.std.specs.Prelude.{◌≡◌, true};
ghost use Rattle.text.specs.Ascii.{ascii};
ghost use Rattle.text.specs.Shape.{shape};
ghost use Rattle.calendar.specs.Moments.{is_time, is_ending, micro_written, when_of, is_when, is_moment, is_before};
ghost use Rattle.calendar.specs.Places.{digits_at, time_places};

use crate::dates::{day_written, two_at};
use crate::days::is_day;
use text::Class;

// In the order of time, since the day stands first.
#[derive(Clone, Copy, PartialEq, Eq, PartialOrd, Ord)]
pub struct Moment {
    // yyyymmdd
    pub day: u32,
    // microsecond of the day
    pub micro: u64,
}

// hh:mm:ss of yyyy-mm-ddThh:mm:ss is at most 23:59:59.
#[tactic(auto, using(crate::proofs::PlaceLaws::hour_there, crate::proofs::PlaceLaws::minute_there, crate::proofs::PlaceLaws::second_there), unfolding(crate::specs::Moments::is_time))]
fn is_time(s: &[u8]) -> bool
    requires { digits_at time_places s.now ≡ true }
    ensures { result ≡ is_time s.now }
{
    (two_at(s, 11) <= 23) & (two_at(s, 14) <= 59) & (two_at(s, 17) <= 59)
}

// A point and 1 to 6 digits, or nothing, and Z.
fn is_ending(t: &[u8]) -> bool
    ensures { result ≡ is_ending t.now }
{
    match t {
        [] => false,
        [z] => *z == b'Z',
        [point, digits @ .., z] => (*point == b'.')
            & text::run_of(digits, Class::Digit, 1, 6)
            & (*z == b'Z'),
    }
}

// yyyy-mm-ddThh:mm:ss, of a real day and time or not: run by run, as a date.
fn is_written(s: &[u8]) -> bool
    ensures { result ≡ shape (ascii "dddd-dd-ddTdd:dd:dd") s.now }
{
    if s.len() != 19 {
        return false;
    }
    text::all_within(s, 0, 4, Class::Digit)
        & (s[4] == b'-')
        & text::all_within(s, 5, 7, Class::Digit)
        & (s[7] == b'-')
        & text::all_within(s, 8, 10, Class::Digit)
        & (s[10] == b'T')
        & text::all_within(s, 11, 13, Class::Digit)
        & (s[13] == b':')
        & text::all_within(s, 14, 16, Class::Digit)
        & (s[16] == b':')
        & text::all_within(s, 17, 19, Class::Digit)
}

// What is no digit counts 0, so a shorter fraction is filled with zeros.
#[tactic(auto, using(crate::proofs::PlaceLaws::hour_there, crate::proofs::PlaceLaws::minute_there, crate::proofs::PlaceLaws::second_there, text::proofs::NumberLaws::two_small, text::proofs::NumberLaws::four_small), unfolding(crate::specs::Moments::micro_written))]
fn micro_written(s: &[u8]) -> u64
    requires { digits_at time_places s.now ≡ true }
    ensures { result ≡ micro_written s.now }
{
    let seconds = (two_at(s, 11) * 60 + two_at(s, 14)) * 60 + two_at(s, 17);
    let fraction = text::four_digits(text::rest(s, 20)) * 100 + text::two_digits(text::rest(s, 24));
    seconds as u64 * 1000000 + fraction as u64
}

// The moment that a cell writes.
pub fn parse_moment(s: &[u8]) -> Option<Moment>
    ensures { result ≡ when_of s.now }
{
    if s.len() < 20 {
        return None;
    }
    let (written, ending) = s.split_at(19);
    if !(is_written(written) & is_ending(ending)) {
        return None;
    }
    let day = day_written(s);
    if !(is_day(day) & is_time(s)) {
        return None;
    }
    let micro = micro_written(s);
    Some(Moment { day, micro })
}

// The cell writes a moment.
pub fn is_when(when: Option<Moment>) -> bool
    ensures { result ≡ is_when when }
{
    when.is_some()
}

// A real day, and a microsecond of it.
#[tactic(auto, unfolding(crate::specs::Moments::is_moment))]
pub fn is_moment(day: u32, micro: u64) -> bool
    ensures { result ≡ is_moment day micro }
{
    is_day(day) & (micro <= 86399999999)
}

pub fn is_before(a: Moment, b: Moment) -> bool
    ensures { result ≡ is_before a b }
{
    a < b
}
