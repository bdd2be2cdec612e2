// The LEIs of the executing and the submitting entity, and of the firms that transmitted an order.
#![tactic(auto, unfolding(crate::specs::Facts::entity_from))]

ghost use Rattle.std.specs.Prelude.{◌≡◌};
ghost use Rattle.facts.specs.Facts.{entity_from};

use crate::answers::EntityAsked;
use cells::SplitLine;

#[derive(Clone, Copy)]
pub struct EntityFacts {
    // 040 and 041
    pub member: bool,
    pub other: bool,
    // 060
    pub submitter: bool,
    // 260 and 270
    pub buyers_firm: bool,
    pub sellers_firm: bool,
}

// Cells 4, 5, 6, 26 and 27, with what was asked.
pub fn entity_facts(split: &SplitLine, asked: EntityAsked) -> EntityFacts
    ensures { result ≡ entity_from split.now.line.now asked }
{
    let c5 = split.cell(5);
    EntityFacts {
        member: text::same(c5, b"TRUE") & !asked.executing.unlapsed,
        other: text::same(c5, b"FALSE") & !asked.executing.any,
        submitter: !asked.submitting.any,
        buyers_firm: (split.cell(26).len() != 0) & !asked.buyers_firm.any,
        sellers_firm: (split.cell(27).len() != 0) & !asked.sellers_firm.any,
    }
}
