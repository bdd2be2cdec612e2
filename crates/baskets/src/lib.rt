// Cells 47 and 49: legs of baskets of items, each item an index and an ISIN or a term.
//
// Every function answers for every input. What each answers is a definition of specs/, which the crates above cite.
#![tactic(auto)]

mod items;
mod legs;
mod underlying;

pub use items::Holds;
pub use legs::Kind;
pub use underlying::{Underlying, is_underlying, parse_underlying, terms_fit};
