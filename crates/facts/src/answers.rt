// What the five lists say of a line: the answers to every look-up, made once. What is left of a fact is a formula over the cells, what was read and these answers.
use lists::{CurrencyRows, InstrumentRows, VenueRows};

// A LEI is good on a day: for status 1, 3 or 4, and for any of 1 to 4.
#[derive(Clone, Copy)]
pub struct LeiFit {
    pub unlapsed: bool,
    pub any: bool,
}

// Of a party: its LEI is good, its person's country is known, its MIC is of kind 1 or 3. A list is read only for the kind that it is of.
#[derive(Clone, Copy)]
pub struct PartyAsked {
    pub lei: bool,
    pub country: bool,
    pub mic: bool,
}

#[derive(Clone, Copy)]
pub struct PartiesAsked {
    pub buyer: PartyAsked,
    pub buyer_for: PartyAsked,
    pub seller: PartyAsked,
    pub seller_for: PartyAsked,
}

// Cells 4, 6, 26 and 27.
#[derive(Clone, Copy)]
pub struct EntityAsked {
    pub executing: LeiFit,
    pub submitting: LeiFit,
    pub buyers_firm: LeiFit,
    pub sellers_firm: LeiFit,
}

// Cells 31, 34, 44, 45 and 52.
#[derive(Clone, Copy)]
pub struct MoneyAsked {
    pub quantity: CurrencyRows,
    pub price: CurrencyRows,
    pub notional: CurrencyRows,
    pub second: CurrencyRows,
    pub strike: CurrencyRows,
}

#[derive(Clone, Copy)]
pub struct Asked {
    pub entity: EntityAsked,
    pub parties: PartiesAsked,
    // cells 8, 17 and 37
    pub country8: bool,
    pub country17: bool,
    pub country37: bool,
    pub money: MoneyAsked,
    // cells 36 and 41
    pub venue: VenueRows,
    pub instrument: InstrumentRows,
}
