// Amounts: the decimal form D(n, f, m) of the paper, and the prices and quantities that are written with it.
//
// A decimal is read to a whole number and the fewest decimal places that lose nothing, so equal amounts have one form.
#![tactic(auto)]

ghost use Rattle.std.specs.Prelude.{◌≡◌, ◌≤◌, length};
ghost use Rattle.amount.specs.Decimal.{point_at, digits_of, is_decimal, without_last_zeros, value_of};
ghost use Rattle.amount.specs.Told.{value_in, value_behind};
ghost use Rattle.amount.specs.Signed.{behind_sign, signed_of, signed_kind};
ghost use Rattle.amount.specs.Price.{price_of, price_kind};
ghost use Rattle.amount.specs.Quantity.{units_of, quantity_of, quantity_kind};

use text::Class;

// The mantissa with its point moved left by the places: 1.50 is 15 with 1 place, and every zero 0 with none.
#[derive(Clone, Copy)]
pub struct Decimal {
    pub mantissa: i64,
    pub places: u8,
}

#[derive(Clone, Copy)]
pub enum Price {
    // PNDG
    Pending,
    // NOAP
    NotApplicable,
    // PC:
    Percent(Decimal),
    // MV:
    Money(Decimal),
    // YLD:
    Yield(Decimal),
    // BP:
    BasisPoints(Decimal),
    Malformed,
}

#[derive(Clone, Copy)]
pub enum Quantity {
    // UNT:
    Units(Decimal),
    // NOM:
    Nominal(Decimal),
    // MON:
    Monetary(Decimal),
    Malformed,
}

// The place of the first point, or the length where there is none.
#[tactic(auto, using(crate::proofs::DecimalLaws::point_found))]
fn point_at(s: &[u8]) -> usize
    ensures { result ≡ point_at s.now }
{
    s.iter().position(|&b| b == b'.').unwrap_or(s.len())
}

// D(n, f, m).
#[tactic(auto, using(crate::proofs::DecimalLaws::point_within, crate::proofs::DecimalLaws::whole_length), unfolding(crate::specs::Decimal::is_decimal, crate::specs::Decimal::whole, crate::specs::Decimal::decimals))]
pub fn is_decimal(s: &[u8], n: usize, f: usize, m: usize) -> bool
    ensures { result ≡ is_decimal n f m s.now }
{
    let point = point_at(s);
    text::run_of(text::head(s, point), Class::Digit, 1, n)
        && (point == s.len()
            || (s.len() <= m && text::run_of(text::rest(s, point + 1), Class::Digit, 0, f)))
}

// Zeros at the end of decimals say nothing. They are looked for from the end, where most decimals have none.
#[tactic(auto, using(crate::proofs::LastZeros::zero_goes, crate::proofs::LastZeros::other_stays, crate::proofs::LastZeros::none_stays))]
fn without_last_zeros(s: &[u8]) -> &[u8]
    ensures { result.now ≡ without_last_zeros s.now }
{
    let mut left = s;
    while let [front @ .., b'0'] = left {
        left = front;
    }
    left
}

// At the document's widths there are never more than 18 digits: with a point among them, 19 bytes hold no more.
// A zero before the point stays: places never fall below none.
fn value_of(s: &[u8]) -> Decimal
    requires { length (digits_of s.now) ≤ 18 }
    ensures { result ≡ value_of s.now }
{
    let point = point_at(s);
    let before = text::head(s, point);
    let behind = text::rest(s, point + 1);
    let fewest = without_last_zeros(behind);
    Decimal {
        mantissa: text::joined_number(before, fewest) as i64,
        places: fewest.len() as u8,
    }
}

// What follows the one + or - that an amount may open with.
#[tactic(auto, unfolding(crate::specs::Signed::behind_sign, text::specs::Word::starts_with))]
fn behind_sign(s: &[u8]) -> &[u8]
    ensures { result.now ≡ behind_sign s.now }
{
    match s {
        [b'+' | b'-', size @ ..] => size,
        _ => s,
    }
}

// D(n, f, m) at a width in use: n and m are such that it holds at most 18 digits.
#[derive(Clone, Copy)]
struct Width {
    n: usize,
    f: usize,
    m: usize,
    ghost few: { n ≤ 18 },
    ghost short: { m ≤ 19 },
}

// Both are inlined, so that the widths are constants in them: else reading a price takes half as many instructions again.
impl Width {
    #[inline(always)]
    #[tactic(auto, using(crate::proofs::DecimalLaws::few_digits))]
    fn value_in(self, s: &[u8]) -> Option<Decimal>
        ensures { result ≡ value_in self.n self.f self.m s.now }
    {
        if !is_decimal(s, self.n, self.f, self.m) {
            return None;
        }
        Some(value_of(s))
    }

    // What stands behind a kind's word with its colon.
    #[inline(always)]
    #[tactic(auto, unfolding(crate::specs::Decimal::tagged))]
    fn value_behind(self, word: &[u8], s: &[u8]) -> Option<Decimal>
        ensures { result ≡ value_behind word.now self.n self.f self.m s.now }
    {
        if !text::starts_with(s, word) {
            return None;
        }
        self.value_in(text::rest(s, word.len()))
    }
}

const PERCENT: Width = Width {
    n: 11,
    f: 10,
    m: 19,
};

const YIELD: Width = Width {
    n: 11,
    f: 10,
    m: 12,
};

// Of basis points and of units.
const FRACTION: Width = Width {
    n: 18,
    f: 17,
    m: 19,
};

const MONEY: Width = Width { n: 18, f: 5, m: 19 };

// D(18, f, 19) that may open with one + or -, which is not counted, read to its value: f is 5 for cell 38 and 13 behind MV:.
// Below zero for a minus. Of at most 18 digits the negation is exact at both ends, and zero has no sign.
pub fn parse_signed(s: &[u8], f: usize) -> Option<Decimal>
    ensures { result ≡ signed_of f s.now }
{
    let width = Width { n: 18, f, m: 19 };
    let d = width.value_in(behind_sign(s))?;
    if text::starts_with(s, b"-") {
        return Some(Decimal {
            mantissa: -d.mantissa,
            ..d
        });
    }
    Some(d)
}

// Cells 33 and 51.
#[tactic(auto, unfolding(crate::specs::Price::price_of))]
pub fn parse_price(s: &[u8]) -> Price
    ensures { result ≡ price_of s.now }
{
    if text::same(s, b"PNDG") {
        return Price::Pending;
    }
    if text::same(s, b"NOAP") {
        return Price::NotApplicable;
    }
    if let Some(d) = PERCENT.value_behind(b"PC:", s) {
        return Price::Percent(d);
    }
    if text::starts_with(s, b"MV:") {
        return parse_signed(text::rest(s, 3), 13).map_or(Price::Malformed, Price::Money);
    }
    if let Some(d) = YIELD.value_behind(b"YLD:", s) {
        return Price::Yield(d);
    }
    if let Some(d) = FRACTION.value_behind(b"BP:", s) {
        return Price::BasisPoints(d);
    }
    Price::Malformed
}

// Units are not zero.
fn units_of(d: Decimal) -> Quantity
    ensures { result ≡ units_of d }
{
    if d.mantissa == 0 {
        Quantity::Malformed
    } else {
        Quantity::Units(d)
    }
}

// Cell 30.
#[tactic(auto, unfolding(crate::specs::Quantity::quantity_of))]
pub fn parse_quantity(s: &[u8]) -> Quantity
    ensures { result ≡ quantity_of s.now }
{
    if let Some(d) = FRACTION.value_behind(b"UNT:", s) {
        return units_of(d);
    }
    if let Some(d) = MONEY.value_behind(b"NOM:", s) {
        return Quantity::Nominal(d);
    }
    if let Some(d) = MONEY.value_behind(b"MON:", s) {
        return Quantity::Monetary(d);
    }
    Quantity::Malformed
}

// The kinds of a signed amount, of a price and of a quantity, numbered from 2 on as the paper lists them; 0 where there is none of its form.
// They stay numbers: those of a price and a quantity are what the rules by CFI take.
pub fn signed_kind(signed: Option<Decimal>) -> u8
    ensures { result ≡ signed_kind signed }
{
    match signed {
        Some(_) => 2,
        None => 0,
    }
}

pub fn price_kind(price: Price) -> u8
    ensures { result ≡ price_kind price }
{
    match price {
        Price::Pending => 2,
        Price::NotApplicable => 3,
        Price::Percent(_) => 4,
        Price::Money(_) => 5,
        Price::Yield(_) => 6,
        Price::BasisPoints(_) => 7,
        Price::Malformed => 0,
    }
}

pub fn quantity_kind(quantity: Quantity) -> u8
    ensures { result ≡ quantity_kind quantity }
{
    match quantity {
        Quantity::Units(_) => 2,
        Quantity::Nominal(_) => 3,
        Quantity::Monetary(_) => 4,
        Quantity::Malformed => 0,
    }
}
