// What identifies a person, after the colon of CONCAT, CCPT and NIDN.
ghost use Rattle.std.specs.Prelude.{◌≡◌};
ghost use Rattle.ident.specs.Person.{concat_shaped, after_country, number_shaped, country_of, concat_day};

use text::Class;

// Run by run, as a LEI (`lei_shaped` in codes).
pub fn concat_shaped(s: &[u8]) -> bool
    ensures { result ≡ concat_shaped s.now }
{
    if s.len() != 20 {
        return false;
    }
    text::all_within(s, 0, 2, Class::Capital)
        & text::all_within(s, 2, 10, Class::Digit)
        & text::all_within(s, 10, 11, Class::Capital)
        & text::all_within(s, 11, 15, Class::CapitalHash)
        & text::all_within(s, 15, 16, Class::Capital)
        & text::all_within(s, 16, 20, Class::CapitalHash)
}

// The class of what follows the two letters.
#[tactic(auto, unfolding(crate::specs::Person::after_country))]
fn after_country(s: &[u8]) -> Class
    ensures { result ≡ after_country s.now }
{
    if text::starts_with(s, b"FI") {
        return Class::CapitalDigitSign;
    }
    if text::starts_with(s, b"LV") {
        return Class::CapitalDigitMinus;
    }
    Class::CapitalDigit
}

// The number of a passport or of a register, as CCPT and NIDN have it.
#[tactic(auto, unfolding(crate::specs::Person::number_shaped))]
pub fn number_shaped(s: &[u8]) -> bool
    ensures { result ≡ number_shaped s.now }
{
    let n = s.len();
    (3 <= n)
        & (n <= 35)
        & text::all_of(text::head(s, 2), Class::Capital)
        & text::all_of(text::rest(s, 2), after_country(s))
}

// The first two characters if both are capitals, else nothing.
#[tactic(auto, unfolding(crate::specs::Person::country_of))]
pub fn country_of(s: &[u8]) -> &[u8]
    ensures { result.now ≡ country_of s.now }
{
    if text::run_of(text::head(s, 2), Class::Capital, 2, 2) {
        return text::head(s, 2);
    }
    text::head(s, 0)
}

// The 8 digits of a CONCAT, yyyymmdd.
pub fn concat_day(s: &[u8]) -> u32
    ensures { result ≡ concat_day s.now }
{
    text::eight_digits(text::rest(s, 2))
}
