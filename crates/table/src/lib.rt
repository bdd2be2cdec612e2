// The table of the day's summary: the records of entities, and the common one.
//
// All that counts, compares or chooses is in summary; here the records are kept.
#![tactic(auto)]

ghost use Rattle.std.specs.Prelude.{◌≡◌};
ghost use Rattle.table.specs.Rows.{record_at, record_in};
ghost use Rattle.table.specs.Noted.{noted, empty_table};

use summary::{MOST_RECORDS, Record};
use verdict::{CODE_COUNT, Verdict};

// Records of entities; the row behind them is the common record's.
pub const RECORD_COUNT: usize = MOST_RECORDS;

pub const ROW_COUNT: usize = RECORD_COUNT + 1;

#[derive(Drop)]
pub struct Table {
    pub records: [Record; RECORD_COUNT],
    pub common: Record,
}

const FREE: Record = Record {
    entity: [0; 20],
    accepted: 0,
    cancelled: 0,
    found: 0,
    full: 0,
    refused: 0,
    codes: [0; CODE_COUNT],
};

// The record of a row, of as many records as are lent, and behind them the common one.
pub fn record_in(records: &[Record], common: &Record, i: usize) -> Record
    ensures { result ≡ record_in records.now common.now i }
{
    if i < records.len() {
        records[i]
    } else {
        *common
    }
}

impl Table {
    // All records free, and nothing counted.
    #[tactic(auto, unfolding(summary::specs::Counting::fresh))]
    pub fn empty() -> Table
        ensures { result ≡ empty_table }
    {
        Table {
            records: [FREE; RECORD_COUNT],
            common: FREE,
        }
    }

    // The record of a row.
    pub fn record_at(&self, i: usize) -> Record
        ensures { result ≡ record_at self.now i }
    {
        record_in(&self.records, &self.common, i)
    }

    // A line that got the verdict, counted where it belongs.
    #[tactic(auto, unfolding(crate::specs::Noted::noted))]
    pub fn note(&mut self, line: &[u8], verdict: Verdict)
        ensures { self.new ≡ noted self.old line.now verdict }
    {
        summary::note(&mut self.records, &mut self.common, line, verdict);
    }
}
