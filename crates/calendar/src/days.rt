// Days, as the numbers yyyymmdd.
ghost use Rattle.std.specs.Prelude.{◌≡◌};
ghost use Rattle.calendar.specs.Day.{leap, month_length, is_day_of, is_day, five_years_before};

#[tactic(auto, unfolding(crate::specs::Day::leap))]
fn is_leap(year: u32) -> bool
    ensures { result ≡ leap year }
{
    (year % 4 == 0) & ((year % 100 != 0) | (year % 400 == 0))
}

#[tactic(auto, unfolding(crate::specs::Day::month_length))]
fn month_length(year: u32, month: u32) -> u32
    ensures { result ≡ month_length year month }
{
    match month {
        2 => { if is_leap(year) { 29 } else { 28 } }
        4 | 6 | 9 | 11 => 30,
        _ => 31,
    }
}

// A real day of the years `first` to `last`.
pub fn is_day_of(first: u32, last: u32, ymd: u32) -> bool
    ensures { result ≡ is_day_of first last ymd }
{
    let year = ymd / 10000;
    let month = ymd / 100 % 100;
    let day = ymd % 100;
    (first <= year)
        & (year <= last)
        & (1 <= month)
        & (month <= 12)
        & (1 <= day)
        & (day <= month_length(year, month))
}

// Of the years 1900 to 9999, as cells and the submission moment have them.
#[tactic(auto, unfolding(crate::specs::Day::is_day))]
pub fn is_day(ymd: u32) -> bool
    ensures { result ≡ is_day ymd }
{
    is_day_of(1900, 9999, ymd)
}

// The same month and day five years before, and 28 February for 29 February. Years are counted down to 0, so that every number has an answer.
#[tactic(auto, using(crate::proofs::FiveYears::back_29, crate::proofs::FiveYears::back_other))]
pub fn five_years_before(ymd: u32) -> u32
    ensures { result ≡ five_years_before ymd }
{
    let year = ymd / 10000;
    let earlier = year.saturating_sub(5);
    let month_and_day = ymd % 10000;
    if month_and_day == 229 {
        return earlier * 10000 + 228;
    }
    earlier * 10000 + month_and_day
}
