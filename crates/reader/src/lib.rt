// The reader of cells: it holds a line and the place of the next cell, and each step hands that cell back.
//
// A line without bytes is one blank cell. Judging reads cells by the table of their places instead (crate cells); the reader is
// for a host that wants them one after another, of any number.
#![tactic(auto)]

ghost use Rattle.std.specs.Prelude.{◌≡◌, ◌-◌, take, drop, length, position};
ghost use Rattle.cells.specs.Cells.{is_bar, first_cell};
ghost use Rattle.reader.specs.Reading.{begun, cell_from, place_after, is_over, Stepped, step_from};

// A line, and the place in it where the next cell starts.
#[derive(Clone, Copy)]
pub struct Reader<'a> {
    pub line: &'a [u8],
    pub at: usize,
}

// What a step hands back: the cell as a part of the line and the place after its bar, which after the last cell is the line's
// length + 1. Done is a step from a place over the length: its cell is blank, and the place stays. So the three stand side by side,
// and not as an Option: of a step that is done the contract determines cell and place too (`step_determined`).
#[derive(Clone, Copy)]
pub struct Taken<'a> {
    pub cell: &'a [u8],
    pub next: usize,
    pub done: bool,
}

pub fn new<'a>(line: &'a [u8]) -> Reader<'a>
    ensures { result ≡ begun line.entry }
{
    Reader { line, at: 0 }
}

#[tactic(auto, unfolding(crate::specs::Reading::is_over))]
pub fn is_done(line: &[u8], at: usize) -> bool
    ensures { result ≡ is_over line.now at }
{
    line.len() < at
}

// Where the first bar stands.
fn bar_in(s: &[u8]) -> Option<usize>
    ensures { result ≡ position is_bar s.now }
{
    s.iter().position(|&b| b == b'|')
}

// How long the first cell is: it ends at the first bar, or with the line.
#[tactic(auto, using(crate::proofs::ReadingLaws::cell_until))]
fn cell_length(s: &[u8]) -> usize
    ensures { result ≡ length (first_cell s.now) }
{
    bar_in(s).unwrap_or(s.len())
}

#[tactic(auto, using(crate::proofs::ReadingLaws::first_short), unfolding(crate::specs::Reading::place_after, crate::specs::Reading::is_over, crate::specs::Reading::cell_from))]
pub fn place_after(line: &[u8], at: usize) -> usize
    ensures { result ≡ place_after line.now at }
{
    if line.len() < at {
        return at;
    }
    at + cell_length(&line[at..]) + 1
}

// The bytes from a place up to the bar that stands before `next`.
pub fn cell_before(line: &[u8], at: usize, next: usize) -> &[u8]
    ensures { result.now ≡ take (next - 1 - at) (drop at line.now) }
{
    if next < 1 {
        return text::head(line, 0);
    }
    text::part(line, at, next - 1)
}

pub fn step<'a>(r: Reader<'a>) -> Taken<'a>
    ensures { Stepped r.entry.line.now r.entry.at result.cell.now result.next result.done }
{
    let next = place_after(r.line, r.at);
    let cell = cell_before(r.line, r.at, next);
    let done = is_done(r.line, r.at);
    Taken { cell, next, done }
}

// The first cell of a line, by one step of a reader.
pub fn first(line: &[u8]) -> &[u8]
    ensures { result.now ≡ cell_from line.now 0 }
{
    step(new(line)).cell
}

// A step in numbers, for callers that hold no reader: how long the cell at a place is, the next place, and whether none is left. As in a
// step, `step_from` determines all three where none is left.
#[derive(Clone, Copy)]
pub struct StepFrom {
    pub length: usize,
    pub next: usize,
    pub done: bool,
}

pub fn step_from(line: &[u8], at: usize) -> StepFrom
    ensures { result ≡ step_from line.now at }
{
    let taken = step(Reader { line, at });
    StepFrom {
        length: taken.cell.len(),
        next: taken.next,
        done: taken.done,
    }
}
