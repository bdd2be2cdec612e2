// The register of pairs: which entity's reference is live, and which is cancelled.
//
// A register is bytes that the caller lends: the mark TRN, a 16-bit version, 32 bits of rows used, then rows. Every
// function answers for every register. One that is not framed holds no pair, and no byte of it is ever changed. What reads or
// writes a row is handed the width of a row, as `row_width` tells it: so a call looks at the head once. A pair is looked for row
// by row: there is no heap for a map, and a register is lent for one call.
#![tactic(auto)]

mod conversion;
mod frame;
mod pairs;
mod rows;
mod writes;

pub use conversion::convert;
pub use frame::{full, row_width, used};
pub use pairs::pair_bytes;
pub use rows::{Standing, find, standing_at, standing_of};
pub use writes::{set_cancelled, set_live};
