// Legs: baskets with a sign, or the one basket that has none.
ghost use Rattle.std.specs.Prelude.{◌≡◌};
ghost use Rattle.baskets.specs.Legs.{leg_in, legs_in};
ghost use Rattle.baskets.specs.Told.{part_told};

use crate::items::{Holds, Part, basket_in, broken_off, in_front};

// What the word of cell 47 says.
#[derive(Clone, Copy)]
pub enum Kind {
    // SWAP:
    Swap,
    // OTHR:
    Other,
    Malformed,
}

fn leg_in(s: &[u8], holds: Holds) -> Part
    ensures { result ≡ part_told holds (leg_in holds s.now) }
{
    let [b'+' | b'-', basket @ ..] = s else {
        return broken_off(true, 0);
    };
    let basket = basket_in(basket, holds);
    Part {
        size: 1 + basket.size,
        ..basket
    }
}

// One leg, or two with different signs.
fn swap_in(s: &[u8], holds: Holds) -> Part
    ensures { result ≡ part_told holds (legs_in Kind.Swap holds s.now) }
{
    let first = leg_in(s, holds);
    if first.size == s.len() {
        return first;
    }
    let at = first.size + 1 + in_front(text::rest(s, first.size + 1), b' ', b' ');
    let second = leg_in(text::rest(s, at), holds);
    let parted = text::byte_at(s, first.size) == b';';
    let same_sign = text::byte_at(s, 0) == text::byte_at(s, at);
    let end = at + second.size;
    Part {
        good: first.good & parted & second.good & !same_sign & (end == s.len()),
        right: first.right & second.right,
        size: end,
    }
}

// One basket without a sign.
fn other_in(s: &[u8], holds: Holds) -> Part
    ensures { result ≡ part_told holds (legs_in Kind.Other holds s.now) }
{
    let basket = basket_in(s, holds);
    Part {
        good: basket.good & (basket.size == s.len()),
        ..basket
    }
}

// Legs as the kind has them, and nothing behind them.
pub fn legs_in(s: &[u8], kind: Kind, holds: Holds) -> Part
    ensures { result ≡ part_told holds (legs_in kind holds s.now) }
{
    match kind {
        Kind::Swap => swap_in(s, holds),
        Kind::Other => other_in(s, holds),
        Kind::Malformed => broken_off(true, 0),
    }
}
