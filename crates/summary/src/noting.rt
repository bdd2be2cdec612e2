// A judged line noted: the search for its record.
ghost use Rattle.summary.specs.Judged.{line_of};
ghost use Rattle.summary.specs.Noting.{note_of, Noting};

use crate::{Noted, Record, counted, entered, judged_line, reach, stops};
use verdict::Verdict;

// Finds the record of the line's entity, or the first free one, and counts the line there; else in the common record.
pub fn note(records: &mut [Record], common: &mut Record, line: &[u8], verdict: Verdict) -> Noted
    ensures { Noting (note_of records.old common.old (line_of line.now verdict)) result records.new common.new }
{
    let l = judged_line(line, verdict);
    for i in 0..reach(records.len(), l.entity) {
        if stops(records[i].entity, l.entity) {
            let tally = entered(records[i], l);
            records[i] = tally.after;
            return Noted {
                common: false,
                stuck: tally.stuck,
            };
        }
    }
    let tally = counted(*common, l);
    *common = tally.after;
    Noted {
        common: true,
        stuck: tally.stuck,
    }
}
