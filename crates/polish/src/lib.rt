// Polish identifiers: PESEL and NIP with their check digits, the birth day in a PESEL, and what a cell that holds one gives.
//
// Every public function answers for every input. What each answers is a definition of specs/, which the crates above cite.
#![tactic(auto)]

mod births;
mod cells;
mod numbers;

pub use births::{birth_day, is_birth};
pub use cells::{Polish, polish_of};
pub use numbers::{nip_right, pesel_right};
