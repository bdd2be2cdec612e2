// Which form each of the 65 cells has, what they say, and the findings 1001 to 1065 of a line.
#![tactic(auto)]

mod findings;
mod meanings;
mod new_cells;
mod read;
mod tables;

pub use findings::{Status, form_findings, other_findings, status_of};
pub use new_cells::new_findings;
pub use read::{Read, ReadLine, read_cells};
pub use tables::Form;
