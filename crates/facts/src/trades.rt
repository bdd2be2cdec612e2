// The venue, the instrument, and what the cells hold.
#![tactic(auto, unfolding(crate::specs::Facts::trade_from, crate::specs::Facts::quantity_held, crate::specs::Facts::price_held, crate::specs::Words::held_word, crate::specs::Words::held_quantity, crate::specs::Words::held_price, crate::specs::Words::held_swap, crate::specs::Rules::holdings, forms::specs::Read::read_of))]

ghost use Rattle.std.specs.Prelude.{◌≡◌};
ghost use Rattle.facts.specs.Words.{held_at_all, held_word, kind_held, swap_held};
ghost use Rattle.facts.specs.Rules.{holdings};
ghost use Rattle.facts.specs.Facts.{quantity_held, price_held, trade_from};

use crate::parties::is_off;
use amount::{Price, Quantity};
use baskets::{Kind, Underlying};
use forms::ReadLine;
use lists::{InstrumentRows, VenueRows};

#[derive(Clone, Copy)]
pub struct TradeFacts {
    // 030, 360, 361, 362, 370 and 372
    pub no_code: bool,
    pub unknown: bool,
    pub listed_off: bool,
    pub transmitted: bool,
    pub no_branch: bool,
    pub branch: bool,
    // 331 and 351
    pub debt_in_units: bool,
    pub bond_without_net: bool,
    // 470
    pub wrong_isin: bool,
}

// The cells of a trade that the venue's and the instrument's rules read: 3, 25, 36 and 37, with what the lists say of 36 and 41 and what the others
// hold: 331 is units (2) in 30 and percent (4) in 33, 351 a blank (1) in 35. And what was read of 47.
pub fn trade_facts(
    line: &ReadLine,
    venue: VenueRows,
    rows: InstrumentRows,
    held: &[u8; 66],
) -> TradeFacts
    ensures { result ≡ trade_from line.now.split.now.line.now venue rows held.now line.now.read.underlying }
{
    let c36 = line.cell(36);
    let off = is_off(c36);
    let coded = line.cell(3).len() != 0;
    let branch = line.cell(37).len() != 0;
    TradeFacts {
        no_code: coded & (off | venue.kind2 | venue.kind3),
        unknown: !off & !(venue.kind1 | venue.kind2 | venue.kind3),
        listed_off: text::same(c36, b"XXXX") & rows.listed,
        transmitted: text::same(line.cell(25), b"TRUE") & !off,
        no_branch: (venue.kind1 | venue.kind3) & !branch,
        branch: branch & (off | venue.kind2),
        debt_in_units: (held[30] == 2) & (held[33] == 4) & rows.debt,
        bond_without_net: (held[35] == 1) & rows.bond,
        wrong_isin: !line.read.underlying.right,
    }
}

fn held_at_all(s: &[u8]) -> u8
    ensures { result ≡ held_at_all s.now }
{
    if s.len() == 0 {
        return 1;
    }
    2
}

// What a cell holds is a number here and below, as the rules by CFI take it: 1 for a blank one, from 2 on as the paper lists them.
// One of three words, numbered from 2 on.
fn held_word(s: &[u8], first: &[u8], second: &[u8], third: &[u8]) -> u8
    ensures { result ≡ held_word first.now second.now third.now s.now }
{
    if s.len() == 0 {
        return 1;
    }
    if text::same(s, first) {
        return 2;
    }
    if text::same(s, second) {
        return 3;
    }
    if text::same(s, third) {
        return 4;
    }
    0
}

fn held_quantity(s: &[u8], quantity: Quantity) -> u8
    ensures { result ≡ quantity_held s.now quantity }
{
    if s.len() == 0 {
        return 1;
    }
    amount::quantity_kind(quantity)
}

fn held_price(s: &[u8], price: Price) -> u8
    ensures { result ≡ price_held s.now price }
{
    if s.len() == 0 {
        return 1;
    }
    amount::price_kind(price)
}

fn kind_held(kind: Kind, empty: bool) -> u8
    ensures { result ≡ kind_held kind empty }
{
    match kind {
        Kind::Swap => {
            if empty {
                return 4;
            }
            2
        }
        Kind::Other => 3,
        Kind::Malformed => 0,
    }
}

// Of cell 47, by what was read of it and cell 48: a SWAP: that names nothing is not held for one.
fn held_swap(s: &[u8], underlying: Underlying, name: &[u8]) -> u8
    ensures { result ≡ swap_held s.now underlying name.now }
{
    if s.len() == 0 {
        return 1;
    }
    kind_held(underlying.kind, !underlying.legs & (name.len() == 0))
}

// What each cell holds that the rules by CFI ask for, by cell number.
pub fn holdings(line: &ReadLine) -> [u8; 66]
    ensures { result ≡ holdings line.now.split.now.line.now }
{
    let read = &line.read;
    let mut held = [0; 66];
    held[30] = held_quantity(line.cell(30), read.quantity);
    held[33] = held_price(line.cell(33), read.price);
    held[35] = held_at_all(line.cell(35));
    held[38] = held_at_all(line.cell(38));
    let c47 = line.cell(47);
    let c48 = line.cell(48);
    held[47] = held_swap(c47, read.underlying, c48);
    held[48] = held_at_all(c48);
    held[49] = held_at_all(line.cell(49));
    held[50] = held_word(line.cell(50), b"PUTO", b"CALL", b"OTHR");
    held[51] = held_at_all(line.cell(51));
    held[53] = held_at_all(line.cell(53));
    held[54] = held_at_all(line.cell(54));
    held[55] = held_at_all(line.cell(55));
    held[56] = held_word(line.cell(56), b"PHYS", b"CASH", b"OPTL");
    held
}
