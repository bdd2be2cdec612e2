// The step between reading and judging: every look-up that the rules need of a line is made here, once, and nowhere else.
#![tactic(auto, unfolding(facts::specs::Asked::lei_fit, facts::specs::Asked::party_asked, facts::specs::Asked::parties_asked, facts::specs::Asked::entity_asked, facts::specs::Asked::money_asked, facts::specs::Asked::asked_of, facts::specs::Words::lei_good, facts::specs::Words::lei_good_unlapsed))]

ghost use Rattle.std.specs.Prelude.{◌≡◌, ◌||◌};
ghost use Rattle.facts.specs.Words.{moment_in, party_lei_good, kind1, kind3};
ghost use Rattle.facts.specs.Asked.{lei_fit, party_asked, parties_asked, entity_asked, money_asked, asked_of};

use cells::SplitLine;
use facts::{Asked, EntityAsked, LeiFit, MoneyAsked, PartiesAsked, PartyAsked};
use forms::Read;
use ident::Party;
use lists::Lists;

// The list is read only for a LEI whose check digits are right.
pub fn lei_fit(lei: &[u8], s: &[u8], day: u32) -> LeiFit
    ensures { result ≡ lei_fit lei.now s.now day }
{
    if ident::lei_right(s) {
        let rows = lists::lei_rows(lei, s, day);
        return LeiFit {
            unlapsed: rows.unlapsed,
            any: rows.any,
        };
    }
    LeiFit {
        unlapsed: false,
        any: false,
    }
}

// For parties two sets of conditions stand side by side, chosen by the day of the trade: until 2 July 2018 the day of registration is not
// asked for.
#[tactic(auto, using(crate::proofs::PartyLei::until_the_day, crate::proofs::PartyLei::from_the_day), unfolding(facts::specs::Words::party_lei_good))]
fn party_lei_good(lei: &[u8], s: &[u8], t: u32) -> bool
    ensures { result ≡ party_lei_good lei.now s.now t }
{
    if ident::lei_right(s) {
        let rows = lists::lei_rows(lei, s, t);
        if t <= 20180702 {
            return rows.whenever;
        }
        return rows.any;
    }
    false
}

// A venue, in the EEA or outside it.
fn venue_good(ven: &[u8], mic: &[u8], day: u32) -> bool
    ensures { result ≡ (kind1 ven.now mic.now day || kind3 ven.now mic.now day) }
{
    let rows = lists::venue_rows(ven, mic, day);
    rows.kind1 | rows.kind3
}

// Of the party that a cell names, on a day. A CONCAT is as long as a LEI, so a list is read only where the kind is right.
fn ask_party(party: Party, s: &[u8], lists: &Lists, day: u32) -> PartyAsked
    ensures { result ≡ party_asked party s.now lists.now.lei.now lists.now.cty.now lists.now.ven.now day }
{
    let kind = party.identifier;
    let part = ident::part_of(s, kind);
    PartyAsked {
        lei: ident::is_lei(kind) && party_lei_good(lists.lei, part, day),
        country: ident::is_person(kind)
            && lists::country_known(lists.cty, ident::country_of(part), day),
        mic: ident::is_mic(kind) && venue_good(lists.ven, part, day),
    }
}

fn ask_parties(split: &SplitLine, read: &Read, lists: &Lists, t: u32) -> PartiesAsked
    ensures { result ≡ parties_asked split.now.line.now read.now lists.now.lei.now lists.now.cty.now lists.now.ven.now t }
{
    PartiesAsked {
        buyer: ask_party(read.buyer, split.cell(7), lists, t),
        buyer_for: ask_party(read.buyer_for, split.cell(12), lists, t),
        seller: ask_party(read.seller, split.cell(16), lists, t),
        seller_for: ask_party(read.seller_for, split.cell(21), lists, t),
    }
}

// On T; the submitting entity on the submission day.
fn ask_entities(split: &SplitLine, lei: &[u8], t: u32, day: u32) -> EntityAsked
    ensures { result ≡ entity_asked split.now.line.now lei.now t day }
{
    EntityAsked {
        executing: lei_fit(lei, split.cell(4), t),
        submitting: lei_fit(lei, split.cell(6), day),
        buyers_firm: lei_fit(lei, split.cell(26), t),
        sellers_firm: lei_fit(lei, split.cell(27), t),
    }
}

fn ask_money(split: &SplitLine, ccy: &[u8], t: u32) -> MoneyAsked
    ensures { result ≡ money_asked split.now.line.now ccy.now t }
{
    let second = facts::second_currency(split.cell(45));
    MoneyAsked {
        quantity: lists::currency_rows(ccy, split.cell(31), t),
        price: lists::currency_rows(ccy, split.cell(34), t),
        notional: lists::currency_rows(ccy, split.cell(44), t),
        second: lists::currency_rows(ccy, second, t),
        strike: lists::currency_rows(ccy, split.cell(52), t),
    }
}

// All look-ups of a line that is NEW, on T, which its moment gives, and on the submission day.
pub fn ask(split: &SplitLine, read: &Read, lists: &Lists, day: u32) -> Asked
    ensures { result ≡ asked_of split.now.line.now read.now lists.now.lei.now lists.now.cty.now lists.now.ccy.now lists.now.ven.now lists.now.ins.now (moment_in read.now.moment).day day }
{
    let t = facts::trade_day(*read);
    Asked {
        entity: ask_entities(split, lists.lei, t, day),
        parties: ask_parties(split, read, lists, t),
        country8: lists::country_known(lists.cty, split.cell(8), t),
        country17: lists::country_known(lists.cty, split.cell(17), t),
        country37: lists::country_known(lists.cty, split.cell(37), t),
        money: ask_money(split, lists.ccy, t),
        venue: lists::venue_rows(lists.ven, split.cell(36), t),
        instrument: lists::instrument_rows(lists.ins, split.cell(41), t),
    }
}
