// The five reference lists: whether a list is framed, and what its rows say of a key.
//
// A look-up reads the whole rows that fit behind the head, so it answers for any bytes. For a framed list these are the rows that its
// head counts. It goes from row to row, and no map is made: a list is lent as bytes for one call, and there is no heap.
#![tactic(auto)]

mod all;
mod frame;
mod lookups;
mod rows;
mod scan;

pub use all::Lists;
pub use frame::{Mark, framed};
pub use lookups::{
    CurrencyRows, InstrumentRows, LeiRows, VenueRows, country_known, currency_rows,
    instrument_rows, lei_rows, venue_rows,
};
