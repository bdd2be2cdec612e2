// All facts of a line.
#![tactic(auto, unfolding(crate::specs::Facts::facts_from, crate::specs::Facts::deal_of, crate::specs::Rules::good_cells))]

ghost use Rattle.std.specs.Prelude.{◌≡◌, false, not, ◌∷◌, map};
ghost use Rattle.forms.specs.Findings.{form_findings};
ghost use Rattle.facts.specs.Words.{is_live, is_absent, is_cancelled};
ghost use Rattle.facts.specs.Facts.{deal_of, country_from, facts_from};

use crate::answers::Asked;
use crate::entities::{EntityFacts, entity_facts};
use crate::money::{MoneyFacts, money_facts};
use crate::parties::{PartiesFacts, parties_facts};
use crate::times::{TimeFacts, time_facts, trade_day};
use crate::trades::{TradeFacts, holdings, trade_facts};
use calendar::Moment;
use cells::SplitLine;
use forms::ReadLine;
use register::Standing;

#[derive(Clone, Copy)]
pub struct DealFacts {
    // 251, 290 and 570
    pub transmitted: bool,
    pub not_own: bool,
    pub undecided: bool,
}

#[derive(Clone, Copy)]
pub struct Facts {
    // cell f has no form finding, by its number; 0 stands for no cell
    pub ok: [bool; 66],
    // 023
    pub live: bool,
    pub entity: EntityFacts,
    pub parties: PartiesFacts,
    // 080, 170 and 371
    pub country8: bool,
    pub country17: bool,
    pub country37: bool,
    pub time: TimeFacts,
    pub deal: DealFacts,
    pub money: MoneyFacts,
    pub trade: TradeFacts,
    // the 19 codes by CFI, rising
    pub cfi: [bool; 19],
}

fn is_live(standing: Standing) -> bool
    ensures { result ≡ is_live standing }
{
    standing == Standing::Live
}

pub fn is_absent(standing: Standing) -> bool
    ensures { result ≡ is_absent standing }
{
    standing == Standing::Absent
}

pub fn is_cancelled(standing: Standing) -> bool
    ensures { result ≡ is_cancelled standing }
{
    standing == Standing::Cancelled
}

// From the form findings of the 65 cells to what is good, by cell number.
pub fn good_cells(found: &[bool; 65]) -> [bool; 66]
    ensures { result ≡ false ∷ map not found.now }
{
    let mut ok = [false; 66];
    for i in 0..65 {
        ok[i + 1] = !found[i];
    }
    ok
}

// `entity`: one of the parties is the executing entity.
fn deal_facts(split: &SplitLine, entity: bool) -> DealFacts
    ensures { result ≡ deal_of split.now.line.now entity }
{
    let c29 = split.cell(29);
    let deal = text::same(c29, b"DEAL");
    let kept = text::same(split.cell(25), b"FALSE");
    let buyers_firm = split.cell(26).len() != 0;
    let sellers_firm = split.cell(27).len() != 0;
    let decider = split.cell(57).len() != 0;
    DealFacts {
        transmitted: (deal | text::same(c29, b"MTCH")) & !kept,
        not_own: deal & !entity,
        undecided: deal & (!buyers_firm & !sellers_firm & !decider),
    }
}

// A country cell is present, and its code is not known.
fn country_wrong(s: &[u8], known: bool) -> bool
    ensures { result ≡ country_from s.now known }
{
    (s.len() != 0) & !known
}

// The line with what was read of it, its form findings, what the lists say of it, how its pair stands in the register, and the submission moment.
pub fn line_facts(
    line: &ReadLine,
    found: &[bool; 65],
    asked: Asked,
    standing: Standing,
    submitted: Moment,
) -> Facts
    requires { found.now ≡ form_findings line.now.split.now.line.now }
    ensures { result ≡ facts_from line.now.split.now.line.now line.now.read asked standing submitted.day submitted.micro }
{
    let split = line.split;
    let parties = parties_facts(line, asked.parties, trade_day(line.read));
    let own = parties.buyer.entity | parties.seller.entity;
    let held = holdings(line);
    Facts {
        ok: good_cells(found),
        live: is_live(standing),
        entity: entity_facts(split, asked.entity),
        parties,
        country8: country_wrong(split.cell(8), asked.country8),
        country17: country_wrong(split.cell(17), asked.country17),
        country37: country_wrong(split.cell(37), asked.country37),
        time: time_facts(line, submitted),
        deal: deal_facts(split, own),
        money: money_facts(split, asked.money),
        trade: trade_facts(line, asked.venue, asked.instrument, &held),
        cfi: cfi::cfi_findings(&held, split.cell(43)),
    }
}
