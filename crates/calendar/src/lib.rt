// Real days of the years 1900 to 9999, the day five years before one, the dates and moments of cells.
//
// Every function answers for every input. What each answers is a definition of specs/, which the crates above cite.
#![tactic(auto)]

mod dates;
mod days;
mod moments;

pub use dates::{is_date, parse_date};
pub use days::{five_years_before, is_day, is_day_of};
pub use moments::{Moment, is_before, is_moment, is_when, parse_moment};
