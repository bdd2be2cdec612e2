// The pass over a line by which it is split.
ghost use Rattle.std.specs.Prelude.{◌≡◌, length};
ghost use Rattle.cells.specs.Parted.{split_of, in_places};
ghost use Rattle.cells.specs.Pass.{Met, Ahead, Walked, Over};

use crate::line::SplitLine;

// The steps take line, place, table and count of bars one by one: a struct of them would be written at every byte.
// One byte of the pass. Its place is written at every byte, and left behind where the byte is a bar: to ask first would cost more,
// since nothing foretells where a cell ends.
fn step(line: &[u8], at: usize, places: &mut [usize; 80], bars: usize) -> usize
    requires { Ahead 1 line.now places.old bars at }
    ensures { Walked 1 line.now places.new bars result at }
{
    places[bars] = at;
    bars + (line[at] == b'|') as usize
}

// Four steps, and sixteen, in straight line: a loop over them would count once more at every byte.
fn four_steps(line: &[u8], at: usize, places: &mut [usize; 80], bars: usize) -> usize
    requires { Ahead 4 line.now places.old bars at }
    ensures { Walked 4 line.now places.new bars result at }
{
    let first = step(line, at, places, bars);
    let second = step(line, at + 1, places, first);
    let third = step(line, at + 2, places, second);
    step(line, at + 3, places, third)
}

fn sixteen_steps(line: &[u8], at: usize, places: &mut [usize; 80], bars: usize) -> usize
    requires { Ahead 16 line.now places.old bars at }
    ensures { Walked 16 line.now places.new bars result at }
{
    let first = four_steps(line, at, places, bars);
    let second = four_steps(line, at + 4, places, first);
    let third = four_steps(line, at + 8, places, second);
    four_steps(line, at + 12, places, third)
}

// The bytes from a place on, one by one, until there are more bars than 65 cells have.
fn last_steps(line: &[u8], at: usize, places: &mut [usize; 80], before: usize) -> usize
    requires { Met line.now places.old before at }
    ensures { Over line.now places.new result }
{
    let mut bars = before;
    for i in at..line.len() {
        if 64 < bars {
            return bars;
        }
        bars = step(line, i, places, bars);
    }
    bars
}

// The line with its tables, by the places of its 64 bars.
fn from_places<'a>(line: &'a [u8], places: &[usize; 80]) -> SplitLine<'a>
    requires { Met line.now places.now 64 (length line.now) }
    ensures { result.line.now ≡ line.now }
{
    let mut starts = [0; 65];
    let mut ends = [0; 65];
    for k in 0..64 {
        ends[k] = places[k];
        starts[k + 1] = places[k] + 1;
    }
    ends[64] = line.len();
    SplitLine { line, starts, ends }
}

// Sixteen bytes a turn: whether there are too many bars is asked once for all of them, so that there are places for 16 more.
pub fn split<'a>(line: &'a [u8]) -> Option<SplitLine<'a>>
    ensures { in_places result ≡ split_of line.now }
{
    let mut places = [0; 80];
    let mut bars = 0;
    let sixteens = line.len() / 16;
    for n in 0..sixteens {
        if 64 < bars {
            return None;
        }
        bars = sixteen_steps(line, 16 * n, &mut places, bars);
    }
    bars = last_steps(line, 16 * sixteens, &mut places, bars);
    if bars != 64 {
        return None;
    }
    Some(from_places(line, &places))
}
