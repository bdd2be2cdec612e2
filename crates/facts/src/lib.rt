// What the rules ask of a line, worked out once: T, the parties, the venue, currencies, the instrument, what the cells hold.
//
// A rule is then a formula over these facts, and a fact one over what was read of the line and what was asked of the lists. Facts of a malformed
// cell say something, and no rule listens: a rule that reads the cell is not judged.
#![tactic(auto)]

mod answers;
mod entities;
mod lines;
mod money;
mod parties;
mod polish_cells;
mod times;
mod trades;

pub use answers::{Asked, EntityAsked, LeiFit, MoneyAsked, PartiesAsked, PartyAsked};
pub use entities::EntityFacts;
pub use lines::{DealFacts, Facts, good_cells, is_absent, is_cancelled, line_facts};
pub use money::{MoneyFacts, second_currency};
pub use parties::{PartiesFacts, PartyFacts};
pub use polish_cells::polish_facts;
pub use times::{TimeFacts, trade_day};
pub use trades::TradeFacts;
