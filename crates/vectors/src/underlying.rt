// Legs and baskets, of cell 47 and of cell 49.
ghost use Rattle.std.specs.Prelude.{◌≤◌};

use crate::reading::{unhex, word};
use baskets::{Kind, Underlying};

fn underlying_kind(kind: Kind) -> u64
    ensures { result ≤ 2 }
{
    match kind {
        Kind::Malformed => 0,
        Kind::Swap => 1,
        Kind::Other => 2,
    }
}

// 0 where it is malformed; else 100 for SWAP or 200 for OTHR, 10 more where a leg is there, and 1 more where no check digit is wrong.
fn underlying_number(underlying: Underlying) -> u64 {
    let kind = underlying.kind;
    if !baskets::is_underlying(kind) {
        return 0;
    }
    underlying_kind(kind) * 100 + u64::from(underlying.legs) * 10 + u64::from(underlying.right)
}

fn kind_named(name: &[u8]) -> Kind {
    match name {
        b"swap" => Kind::Swap,
        _ => Kind::Other,
    }
}

// underlying on cell 47; terms.swap and terms.other on cell 49, by what cell 47 is.
fn of_text(call: &[u8], input: &[u8]) -> u64 {
    if text::starts_with(call, b"underlying") {
        return underlying_number(baskets::parse_underlying(input));
    }
    u64::from(baskets::terms_fit(input, kind_named(word(call, 1))))
}

// The same calls on a text; underlyingx, termsx.swap and termsx.other on one in hexadecimal.
pub fn of_baskets(call: &[u8], input: &[u8]) -> Option<u64> {
    if text::same(call, b"underlying") | text::starts_with(call, b"terms.") {
        return Some(of_text(call, input));
    }
    if !(text::same(call, b"underlyingx") | text::starts_with(call, b"termsx.")) {
        return None;
    }
    Some(of_text(call, unhex(input).as_slice()))
}
