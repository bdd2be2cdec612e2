// The bytes of a cell: which class each is of, whole words and fixed shapes, numbers, and parts of a slice.
//
// Every function answers for every input. What each answers is a definition of specs/, which the crates above cite.
#![tactic(auto)]

mod classes;
mod loads;
mod numbers;
mod parts;
mod words;

pub use classes::{Class, all_of, all_within, is_in, run_of};
pub use loads::{begins_with, next_row, word};
pub use numbers::{
    digit_of, eight_digits, four_digits, joined_number, le16, le32, number_in, two_digits,
};
pub use parts::{byte_at, head, part, rest};
pub use words::{one_of, same, shaped, starts_with};
