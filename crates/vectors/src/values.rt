// Identifiers and amounts.
ghost use Rattle.std.specs.Prelude.{◌≤◌};

use crate::reading::word;
use amount::{Decimal, Price, Quantity};
use ident::{Allowed, Identifier, Party};

fn kind_number(identifier: Identifier) -> u64
    ensures { result ≤ 8 }
{
    match identifier {
        Identifier::Malformed => 0,
        Identifier::Intc => 1,
        Identifier::Nore => 2,
        Identifier::Lei(_) => 3,
        Identifier::Ccpt(_) => 4,
        Identifier::Concat(_) => 5,
        Identifier::Nidn(_) => 6,
        Identifier::Mic(_) => 7,
        Identifier::Algo(_) => 8,
    }
}

// The kind of a party, and ten more where it has the person shape.
fn party_number(party: Party) -> u64 {
    let identifier = party.identifier;
    let kind = kind_number(identifier);
    if party.shaped {
        return 10 + kind;
    }
    kind
}

pub fn allowed_in(cell: &[u8]) -> Allowed {
    match cell {
        b"7" => ident::allowed7(),
        b"12" => ident::allowed12(),
        b"57" => ident::allowed57(),
        _ => ident::allowed59(),
    }
}

// party.CELL on a cell; nidn.CELL: whether it is a NIDN; part.CELL: how many bytes are handed on.
fn of_party(call: &[u8], input: &[u8]) -> Option<u64> {
    let party = ident::parse_party(input, allowed_in(word(call, 1)));
    if text::starts_with(call, b"party.") {
        return Some(party_number(party));
    }
    let identifier = party.identifier;
    if text::starts_with(call, b"nidn.") {
        return Some(u64::from(ident::is_nidn(identifier)));
    }
    if text::starts_with(call, b"part.") {
        return Some(ident::part_of(input, identifier).len() as u64);
    }
    None
}

// concat_shaped, number_shaped and concat_day on a person; country is how long the country's name is, 0 where there is none.
fn of_person(call: &[u8], input: &[u8]) -> Option<u64> {
    match call {
        b"concat_shaped" => Some(u64::from(ident::concat_shaped(input))),
        b"number_shaped" => Some(u64::from(ident::number_shaped(input))),
        b"concat_day" => Some(u64::from(ident::concat_day(input))),
        b"country" => Some(ident::country_of(input).len() as u64),
        _ => of_party(call, input),
    }
}

pub fn of_ident(call: &[u8], input: &[u8]) -> Option<u64> {
    match call {
        b"lei_shaped" => Some(u64::from(ident::lei_shaped(input))),
        b"lei_remainder" => Some(u64::from(ident::lei_remainder(input))),
        b"isin_right" => Some(u64::from(ident::isin_right(input))),
        b"mic_shaped" => Some(u64::from(ident::mic_shaped(input))),
        _ => of_person(call, input),
    }
}

// What stands for a decimal where there is none.
const NOTHING: Decimal = Decimal {
    mantissa: 0,
    places: 99,
};

fn price_decimal(price: Price) -> Option<Decimal> {
    match price {
        Price::Percent(d) | Price::Money(d) | Price::Yield(d) | Price::BasisPoints(d) => Some(d),
        Price::Pending | Price::NotApplicable | Price::Malformed => None,
    }
}

fn quantity_decimal(quantity: Quantity) -> Option<Decimal> {
    match quantity {
        Quantity::Units(d) | Quantity::Nominal(d) | Quantity::Monetary(d) => Some(d),
        Quantity::Malformed => None,
    }
}

// A number is written with a minus where it is below zero.
fn is_mantissa(d: Decimal, written: &[u8]) -> bool {
    match written.strip_prefix(b"-") {
        Some(digits) => { d.mantissa.checked_neg() == i64::try_from(text::number_in(digits)).ok() }
        None => Some(d.mantissa) == i64::try_from(text::number_in(written)).ok(),
    }
}

// NAME.NUMBER.PLACES: the whole number and the places.
fn is_as_called(decimal: Option<Decimal>, call: &[u8]) -> bool {
    let d = decimal.unwrap_or(NOTHING);
    is_mantissa(d, word(call, 1)) & (u64::from(d.places) == text::number_in(word(call, 2)))
}

// price_kind and price_is.NUMBER.PLACES on cell 33.
fn of_price(call: &[u8], input: &[u8]) -> Option<u64> {
    let price = amount::parse_price(input);
    if text::same(call, b"price_kind") {
        return Some(u64::from(amount::price_kind(price)));
    }
    if text::starts_with(call, b"price_is.") {
        return Some(u64::from(is_as_called(price_decimal(price), call)));
    }
    None
}

// quantity_kind and quantity_is.NUMBER.PLACES on cell 30.
fn of_quantity(call: &[u8], input: &[u8]) -> Option<u64> {
    let quantity = amount::parse_quantity(input);
    if text::same(call, b"quantity_kind") {
        return Some(u64::from(amount::quantity_kind(quantity)));
    }
    if text::starts_with(call, b"quantity_is.") {
        return Some(u64::from(is_as_called(quantity_decimal(quantity), call)));
    }
    of_price(call, input)
}

// signed_18_5_19 and signed_is.NUMBER.PLACES on cell 38.
fn of_signed(call: &[u8], input: &[u8]) -> Option<u64> {
    let signed = amount::parse_signed(input, 5);
    if text::same(call, b"signed_18_5_19") {
        return Some(u64::from(amount::signed_kind(signed) != 0));
    }
    if text::starts_with(call, b"signed_is.") {
        return Some(u64::from(is_as_called(signed, call)));
    }
    of_quantity(call, input)
}

pub fn of_amount(call: &[u8], input: &[u8]) -> Option<u64> {
    match call {
        b"decimal_18_17_19" => Some(u64::from(amount::is_decimal(input, 18, 17, 19))),
        b"decimal_18_5_19" => Some(u64::from(amount::is_decimal(input, 18, 5, 19))),
        _ => of_signed(call, input),
    }
}
