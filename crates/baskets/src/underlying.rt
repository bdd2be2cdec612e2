// Cell 47, the underlying instrument, and cell 49, the terms of its index.
ghost use Rattle.std.specs.Prelude.{◌≡◌};
ghost use Rattle.baskets.specs.Told.{part_told};
ghost use Rattle.baskets.specs.Underlying.{kind_named, legs_from, underlying_of, is_underlying, terms_fit};

use crate::items::{Holds, Part, in_front};
use crate::legs::{Kind, legs_in};

#[derive(Clone, Copy)]
pub struct Underlying {
    pub kind: Kind,
    // a leg or a basket is there
    pub legs: bool,
    // no ISIN has a wrong check digit
    pub right: bool,
}

#[tactic(auto, unfolding(crate::specs::Underlying::kind_named))]
fn kind_named(s: &[u8]) -> Kind
    ensures { result ≡ kind_named s.now }
{
    if text::starts_with(s, b"SWAP:") {
        Kind::Swap
    } else if text::starts_with(s, b"OTHR:") {
        Kind::Other
    } else {
        Kind::Malformed
    }
}

// Nothing, or legs of ISINs.
#[tactic(auto, unfolding(crate::specs::Items::all_right))]
fn legs_from(s: &[u8], kind: Kind) -> Part
    ensures { result ≡ part_told Holds.Isin (legs_from kind s.now) }
{
    if s.len() == 0 {
        return Part {
            good: true,
            right: true,
            size: 0,
        };
    }
    legs_in(s, kind, Holds::Isin)
}

// Cell 47: SWAP: or OTHR:, spaces, and nothing or legs.
#[tactic(auto, using(crate::proofs::ItemLaws::front_within), unfolding(crate::specs::Underlying::underlying_of))]
pub fn parse_underlying(s: &[u8]) -> Underlying
    ensures { result ≡ underlying_of s.now }
{
    let kind = kind_named(s);
    let tail = text::rest(s, 5);
    let text = text::rest(s, 5 + in_front(tail, b' ', b' '));
    let part = legs_from(text, kind);
    let legs = text.len() != 0;
    Underlying {
        kind: if part.good && tail.len() <= 400 {
            kind
        } else {
            Kind::Malformed
        },
        legs,
        right: part.right,
    }
}

pub fn is_underlying(kind: Kind) -> bool
    ensures { result ≡ is_underlying kind }
{
    matches!(kind, Kind::Swap | Kind::Other)
}

// Cell 49: legs of terms, of the kind that 47 is.
#[tactic(auto, unfolding(crate::specs::Underlying::terms_fit))]
pub fn terms_fit(s: &[u8], kind: Kind) -> bool
    ensures { result ≡ terms_fit kind s.now }
{
    let part = legs_in(s, kind, Holds::Term);
    (s.len() <= 400) & part.good
}
