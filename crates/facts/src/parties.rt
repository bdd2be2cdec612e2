// The four parties with their dates: buyer 7 and 11, its decision maker 12 and 15, seller 16 and 20, its decision maker 21 and 24.
#![tactic(auto, unfolding(crate::specs::Facts::party_from, crate::specs::Facts::parties_from))]

ghost use Rattle.std.specs.Prelude.{◌≡◌};
ghost use Rattle.cells.specs.Cells.{cell};
ghost use Rattle.facts.specs.Words.{off, present};
ghost use Rattle.facts.specs.Facts.{party_from, parties_from};

use crate::answers::{PartiesAsked, PartyAsked};
use crate::times::day_in;
use forms::ReadLine;
use ident::Party;

#[derive(Clone, Copy)]
pub struct PartyFacts {
    // 070, 071, 072, 073, 074 and 110 of the buyer, and their kin
    pub lei: bool,
    pub country: bool,
    pub mic: bool,
    pub birth: bool,
    pub shape: bool,
    pub late: bool,
    // the party is the executing entity's LEI, as 290 asks
    pub entity: bool,
}

#[derive(Clone, Copy)]
pub struct PartiesFacts {
    pub buyer: PartyFacts,
    pub buyer_for: PartyFacts,
    pub seller: PartyFacts,
    pub seller_for: PartyFacts,
}

// XXXX or XOFF.
pub fn is_off(s: &[u8]) -> bool
    ensures { result ≡ off s.now }
{
    text::same(s, b"XXXX") | text::same(s, b"XOFF")
}

// `dated`: its date cell is present, which a malformed one is too, so that an Option of the day says less.
// The party that a cell names, with its date, the day that it writes and what was asked of it, on T.
pub fn party_facts(
    party: Party,
    s: &[u8],
    dated: bool,
    date: Option<u32>,
    entity: &[u8],
    asked: PartyAsked,
    t: u32,
) -> PartyFacts
    ensures { result ≡ party_from party s.now dated date entity.now asked t }
{
    let kind = party.identifier;
    let part = ident::part_of(s, kind);
    let is_lei = ident::is_lei(kind);
    let is_person = ident::is_person(kind);
    let day = day_in(date);
    let born = dated & (ident::concat_day(part) != day);
    let foreign = (ident::country_of(part).len() != 0) & !asked.country;
    PartyFacts {
        lei: is_lei & !asked.lei,
        country: is_person & foreign,
        mic: ident::is_mic(kind) & (is_off(part) | !asked.mic),
        birth: ident::is_concat(kind) & party.shaped & born,
        shape: is_person & !party.shaped,
        late: dated & (t < day),
        entity: is_lei & text::same(part, entity),
    }
}

// The party in cell f, with the date in cell d.
fn facts_in(
    line: &ReadLine,
    f: usize,
    party: Party,
    d: usize,
    date: Option<u32>,
    asked: PartyAsked,
    t: u32,
) -> PartyFacts
    ensures { result ≡ party_from party (cell line.now.split.now.line.now f) (present (cell line.now.split.now.line.now d)) date (cell line.now.split.now.line.now 4) asked t }
{
    let dated = line.cell(d).len() != 0;
    party_facts(party, line.cell(f), dated, date, line.cell(4), asked, t)
}

pub fn parties_facts(line: &ReadLine, asked: PartiesAsked, t: u32) -> PartiesFacts
    ensures { result ≡ parties_from line.now.split.now.line.now line.now.read asked t }
{
    let read = &line.read;
    PartiesFacts {
        buyer: facts_in(line, 7, read.buyer, 11, read.date11, asked.buyer, t),
        buyer_for: facts_in(
            line,
            12,
            read.buyer_for,
            15,
            read.date15,
            asked.buyer_for,
            t,
        ),
        seller: facts_in(line, 16, read.seller, 20, read.date20, asked.seller, t),
        seller_for: facts_in(
            line,
            21,
            read.seller_for,
            24,
            read.date24,
            asked.seller_for,
            t,
        ),
    }
}
