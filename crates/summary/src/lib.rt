// The day's summary by firm: what one line adds to a record, and where the search for its record stops.
//
// The host lends a table of records, one for each executing entity, and a common record beside it. All that counts, compares or
// chooses stands here, on plain data; `note` finds the record and puts it back.
#![tactic(auto)]

ghost use Rattle.std.specs.Prelude.{◌≡◌, true, false, ◌++◌, ◌≤◌, ◌<◌, length, get_or, replicate};
ghost use Rattle.cells.specs.Cells.{cell};
ghost use Rattle.verdict.specs.Codes.{codes, code_count};
ghost use Rattle.verdict.specs.Bits.{bits_of, flags_in};
ghost use Rattle.summary.specs.Counting.{up, stuck, Raising, counted_of, blank, fresh, entered_of};
ghost use Rattle.summary.specs.Judged.{names, entity_in, kind_of, of_no_entity, line_of};
ghost use Rattle.summary.specs.Noting.{reach_of, stops_at};

mod noting;

pub use noting::note;
use reader::{cell_before, place_after};
use verdict::{CODE_COUNT, RULE_COUNT, Verdict};

// No record behind this many is used.
pub const MOST_RECORDS: usize = 256;

// A line counts under one of five headings.
#[derive(Clone, Copy, PartialEq, Eq)]
pub enum Kind {
    // accepted
    New,
    Cancelled,
    // judged with findings
    Found,
    // refused by 11
    Full,
    // refused by 1 to 10
    Refused,
}

// What is counted of a line. An entity whose first byte is 0 is none, as in a record that C lends: the line is the common record's.
#[derive(Clone, Copy)]
pub struct Line {
    pub entity: [u8; 20],
    pub kind: Kind,
    pub words: [u64; 3],
}

// Free while the first byte of its entity is 0. `codes` has the lines with each code, in the order of the codes.
#[repr(C)]
#[derive(Clone, Copy)]
pub struct Record {
    pub entity: [u8; 20],
    pub accepted: u32,
    pub cancelled: u32,
    pub found: u32,
    pub full: u32,
    pub refused: u32,
    pub codes: [u32; CODE_COUNT],
}

// Where a line was counted, and whether a counter that it should have raised was at its top. The C interface has the two so.
#[repr(C)]
#[derive(Clone, Copy)]
pub struct Noted {
    pub common: bool,
    pub stuck: bool,
}

// A record with one more line in it, and whether a counter stayed at its top: the record stands in either case, so that it is no Option.
#[derive(Clone, Copy)]
pub struct Tally {
    pub after: Record,
    pub stuck: bool,
}

// One more line for a counter; whether it was at its top, where it stays.
#[tactic(auto, unfolding(crate::specs::Counting::up, crate::specs::Counting::stuck))]
fn raise(counter: &mut u32) -> bool
    ensures risen { counter.new ≡ up true counter.old }
    ensures told { result ≡ stuck true counter.old }
{
    let stuck = *counter == u32::MAX;
    *counter = counter.saturating_add(1);
    stuck
}

// The counters from `from` on whose bits are set in a word, the lowest bit first: a line has few codes, and where it has none no
// counter is looked at. Bits without a counter are passed over. Whether a counter was at its top. The state is the bits
// that are left, and no index: an iterator over them would say no more. It is no twin of what lists a verdict's codes: what is
// done with a bit differs, and a closure would hold both buffers.
fn raise_bits(counters: &mut [u32], from: usize, word: u64) -> bool
    requires { from ≤ length counters.old }
    ensures { Raising (replicate from false ++ bits_of 64 word) counters.old result counters.new }
{
    let mut stuck = false;
    let mut left = word;
    while left != 0 {
        let lowest = left.trailing_zeros() as usize;
        if counters.len() - from <= lowest {
            return stuck;
        }
        stuck |= raise(&mut counters[from + lowest]);
        left -= 1 << lowest;
    }
    stuck
}

fn raise_codes(counters: &mut [u32; CODE_COUNT], words: [u64; 3]) -> bool
    ensures { Raising (flags_in words) counters.old result counters.new }
{
    let first = raise_bits(counters, 0, words[0]);
    let second = raise_bits(counters, 64, words[1]);
    let third = raise_bits(counters, 128, words[2]);
    first | second | third
}

// A record with the line in it, be it an entity's or the common one.
pub fn counted(r: Record, l: Line) -> Tally
    ensures { result ≡ counted_of r l }
{
    let mut after = r;
    let code_stuck = raise_codes(&mut after.codes, l.words);
    let heading_stuck = match l.kind {
        Kind::New => raise(&mut after.accepted),
        Kind::Cancelled => raise(&mut after.cancelled),
        Kind::Found => raise(&mut after.found),
        Kind::Full => raise(&mut after.full),
        Kind::Refused => raise(&mut after.refused),
    };
    Tally {
        after,
        stuck: heading_stuck | code_stuck,
    }
}

fn is_blank(entity: &[u8; 20]) -> bool
    ensures { result ≡ blank entity.now }
{
    entity[0] == 0
}

// The record of an entity that has no line yet.
#[tactic(auto, unfolding(crate::specs::Counting::fresh))]
fn fresh_of(entity: [u8; 20]) -> Record
    ensures { result ≡ fresh entity }
{
    Record {
        entity,
        accepted: 0,
        cancelled: 0,
        found: 0,
        full: 0,
        refused: 0,
        codes: [0; CODE_COUNT],
    }
}

// The line in the record where the search for its entity stops: a free one is taken, whatever lay in it.
#[tactic(auto, unfolding(crate::specs::Counting::entered_of))]
pub fn entered(r: Record, l: Line) -> Tally
    ensures { result ≡ entered_of r l }
{
    if is_blank(&r.entity) {
        return counted(fresh_of(l.entity), l);
    }
    counted(r, l)
}

// How many records are searched for an entity: none for no entity.
#[tactic(auto, unfolding(crate::specs::Noting::reach_of))]
pub fn reach(room: usize, entity: [u8; 20]) -> usize
    ensures { result ≡ reach_of room entity }
{
    if is_blank(&entity) {
        return 0;
    }
    room.min(MOST_RECORDS)
}

// The search for `entity` stops at a record of the entity `name`: it is free, or its own. Of the forms that were counted, this one passes a
// record in the fewest instructions (docs/PACE.md).
#[tactic(auto, unfolding(crate::specs::Noting::stops_at))]
pub fn stops(name: [u8; 20], entity: [u8; 20]) -> bool
    ensures { result ≡ stops_at name entity }
{
    if text::same(&name, &entity) {
        return true;
    }
    is_blank(&name)
}

fn first_cell(line: &[u8]) -> &[u8]
    ensures { result.now ≡ cell line.now 1 }
{
    cell_before(line, 0, place_after(line, 0))
}

// Found from the start, since three cells stand before it: to split the line would take it all.
fn fourth_cell(line: &[u8]) -> &[u8]
    ensures { result.now ≡ cell line.now 4 }
{
    let second = place_after(line, 0);
    let third = place_after(line, second);
    let fourth = place_after(line, third);
    cell_before(line, fourth, place_after(line, fourth))
}

// Cell 4 where it has 20 bytes, else none.
#[tactic(auto, unfolding(crate::specs::Judged::entity_in))]
fn entity_in(line: &[u8]) -> [u8; 20]
    ensures { result ≡ entity_in line.now }
{
    let mut entity = [0u8; 20];
    let written = fourth_cell(line);
    if written.len() == 20 {
        entity.copy_from_slice(written);
    }
    entity
}

// The words name the j-th code.
fn names_code(words: [u64; 3], j: usize) -> bool
    requires { j < code_count }
    ensures { result ≡ names words (get_or codes j 0) }
{
    (words[j / 64] >> (j % 64)) % 2 == 1
}

#[tactic(auto, unfolding(crate::specs::Judged::kind_of))]
fn kind_of(answer: u16, count: u16, new: bool) -> Kind
    ensures { result ≡ kind_of answer count «new» }
{
    match answer {
        0 if count != 0 => Kind::Found,
        0 if new => Kind::New,
        0 => Kind::Cancelled,
        11 => Kind::Full,
        _ => Kind::Refused,
    }
}

// The codes of the forms stand behind those of the rules: 1001 is the first of them, 1004 the fourth. With `matches!(answer, 0 | 11)` the goal
// `returns` stayed open.
#[tactic(auto, unfolding(crate::specs::Judged::of_no_entity))]
fn of_none(answer: u16, words: [u64; 3]) -> bool
    ensures { result ≡ of_no_entity answer words }
{
    ((answer != 0) & (answer != 11))
        | names_code(words, RULE_COUNT)
        | names_code(words, RULE_COUNT + 3)
}

// What is counted of a line that got the verdict.
#[tactic(auto, unfolding(crate::specs::Judged::line_of))]
pub fn judged_line(line: &[u8], verdict: Verdict) -> Line
    ensures { result ≡ line_of line.now verdict }
{
    let words = verdict.words;
    let new = text::same(first_cell(line), b"NEW");
    let kind = kind_of(verdict.answer, verdict.count, new);
    let entity = if of_none(verdict.answer, words) {
        [0; 20]
    } else {
        entity_in(line)
    };
    Line {
        entity,
        kind,
        words,
    }
}
