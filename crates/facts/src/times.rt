// Days and moments.
#![tactic(auto, unfolding(crate::specs::Facts::time_from, crate::specs::Words::not_before, crate::specs::Words::too_old))]

ghost use Rattle.std.specs.Prelude.{◌≡◌};
ghost use Rattle.facts.specs.Words.{moment_in, day_in, not_before, too_old};
ghost use Rattle.facts.specs.Facts.{time_from};

use calendar::Moment;
use forms::{Read, ReadLine};

#[derive(Clone, Copy)]
pub struct TimeFacts {
    // 280 and 281
    pub not_before: bool,
    pub too_old: bool,
    // 541 and 552
    pub past54: bool,
    pub past55: bool,
}

// The moment of cell 28.
pub fn moment_in(when: Option<Moment>) -> Moment
    ensures { result ≡ moment_in when }
{
    when.unwrap_or(Moment { day: 0, micro: 0 })
}

pub fn day_in(date: Option<u32>) -> u32
    ensures { result ≡ day_in date }
{
    date.unwrap_or(0)
}

// T, the day of cell 28.
pub fn trade_day(read: Read) -> u32
    ensures { result ≡ (moment_in read.moment).day }
{
    moment_in(read.moment).day
}

fn not_before(moment: Moment, submitted: Moment) -> bool
    ensures { result ≡ not_before moment submitted.day submitted.micro }
{
    !calendar::is_before(moment, submitted)
}

// Before 2018-01-03, or before the day five years before s.
fn too_old(t: u32, s: u32) -> bool
    ensures { result ≡ too_old t s }
{
    (t < 20180103) | (t < calendar::five_years_before(s))
}

// The moment and the days of cells 54 and 55, against the submission moment.
pub fn time_facts(line: &ReadLine, submitted: Moment) -> TimeFacts
    ensures { result ≡ time_from line.now.split.now.line.now line.now.read submitted.day submitted.micro }
{
    let read = &line.read;
    let moment = moment_in(read.moment);
    let t = moment.day;
    let dated54 = line.cell(54).len() != 0;
    let dated55 = line.cell(55).len() != 0;
    TimeFacts {
        not_before: not_before(moment, submitted),
        too_old: too_old(t, submitted.day),
        past54: dated54 & (day_in(read.date54) < t),
        past55: dated55 & (day_in(read.date55) < t),
    }
}
