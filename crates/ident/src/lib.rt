// Identifiers: LEI, ISIN, MIC, what identifies a person, and the party that a cell names.
//
// Every function answers for every input. What each answers is a definition of specs/, which the crates above cite.
#![tactic(auto)]

mod characters;
mod codes;
mod isins;
mod parties;
mod persons;

pub use codes::{lei_remainder, lei_right, lei_shaped, mic_shaped};
pub use isins::{isin_remainder, isin_right, isin_shaped};
pub use parties::{
    Allowed, Identifier, Party, allowed7, allowed12, allowed57, allowed59, is_concat, is_lei,
    is_malformed, is_mic, is_nidn, is_person, parse_party, part_of, person_shaped,
};
pub use persons::{concat_day, concat_shaped, country_of, number_shaped};
