// The 73 rules in the order of their codes, the 3 for Polish identifiers, and the 141 flags of a line.
//
// Each rule is a formula: judged for this line, none of its cells with a form finding, and its condition, which is a fact of the line.
#![tactic(auto)]

mod early;
mod later;
mod lines;

pub use lines::{unless_new, when_new};
