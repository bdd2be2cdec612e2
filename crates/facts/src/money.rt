// Currencies.
#![tactic(auto, unfolding(crate::specs::Words::second_currency, crate::specs::Words::no_money, crate::specs::Facts::currency_from, crate::specs::Facts::quantity_currency_from, crate::specs::Facts::money_from))]

ghost use Rattle.std.specs.Prelude.{◌≡◌};
ghost use Rattle.facts.specs.Words.{no_money, second_currency};
ghost use Rattle.facts.specs.Facts.{currency_from, quantity_currency_from, money_from};

use crate::answers::MoneyAsked;
use cells::SplitLine;
use lists::CurrencyRows;

#[derive(Clone, Copy)]
pub struct MoneyFacts {
    // 310, 340, 440, 451 and 520
    pub quantity: bool,
    pub price: bool,
    pub notional: bool,
    pub second: bool,
    pub strike: bool,
}

fn is_no_money(s: &[u8]) -> bool
    ensures { result ≡ no_money s.now }
{
    text::one_of(s, b"XAGXAUXBAXBBXBCXBDXDRXEUXFUXPDXPTXXX", 3)
}

fn currency_wrong(s: &[u8], rows: CurrencyRows) -> bool
    ensures { result ≡ currency_from s.now rows }
{
    (s.len() != 0) & (is_no_money(s) | !rows.current)
}

fn quantity_currency_wrong(s: &[u8], rows: CurrencyRows) -> bool
    ensures { result ≡ quantity_currency_from s.now rows }
{
    (s.len() != 0) & (is_no_money(s) | !(rows.current | rows.pre_euro))
}

// The currency of cell 45, behind FX: or INTRST:.
pub fn second_currency(s: &[u8]) -> &[u8]
    ensures { result.now ≡ second_currency s.now }
{
    if text::starts_with(s, b"FX:") {
        return text::rest(s, 3);
    }
    if text::starts_with(s, b"INTRST:") {
        return text::rest(s, 7);
    }
    text::head(s, 0)
}

// Cells 31, 34, 44, 45 and 52, with what was asked.
pub fn money_facts(split: &SplitLine, asked: MoneyAsked) -> MoneyFacts
    ensures { result ≡ money_from split.now.line.now asked }
{
    let c45 = second_currency(split.cell(45));
    MoneyFacts {
        quantity: quantity_currency_wrong(split.cell(31), asked.quantity),
        price: currency_wrong(split.cell(34), asked.price),
        notional: currency_wrong(split.cell(44), asked.notional),
        second: currency_wrong(c45, asked.second),
        strike: currency_wrong(split.cell(52), asked.strike),
    }
}
