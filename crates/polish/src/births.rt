// The birth day in a PESEL, as the number yyyymmdd.
ghost use Rattle.std.specs.Prelude.{◌≡◌};
ghost use Rattle.polish.specs.Birth.{century, birth_day, is_birth};

// By the month's two digits; 0 where they name no month.
#[tactic(auto, unfolding(crate::specs::Birth::century))]
fn century(month: u32) -> u32
    ensures { result ≡ century month }
{
    match month {
        81..=92 => 1800,
        1..=12 => 1900,
        21..=32 => 2000,
        41..=52 => 2100,
        61..=72 => 2200,
        _ => 0,
    }
}

// The day that the first six digits name, real or not.
#[tactic(auto, using(text::proofs::NumberLaws::two_small, crate::proofs::CenturyLaws::century_small), unfolding(crate::specs::Birth::birth_day))]
pub fn birth_day(s: &[u8]) -> u32
    ensures { result ≡ birth_day s.now }
{
    let year = text::two_digits(s);
    let month = text::two_digits(text::rest(s, 2));
    let day = text::two_digits(text::rest(s, 4));
    (century(month) + year) * 10000 + month % 20 * 100 + day
}

// They name a real day of 1800 to 2299.
#[tactic(auto, unfolding(crate::specs::Birth::is_birth))]
pub fn is_birth(s: &[u8]) -> bool
    ensures { result ≡ is_birth s.now }
{
    calendar::is_day_of(1800, 2299, birth_day(s))
}
