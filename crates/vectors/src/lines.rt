// Cells and forms. A line is made from a base by putting something in the place of one of its cells, or of several in a row.
use crate::reading::{Filled, behind, number, place_of, unhex, word};

const MOST: usize = 4096;

// What NEW needs is there, and nothing else.
const NEW: [u8; 172] = *b"\
    NEW|R1||00000000000000000098|TRUE|00000000000000000098|INTC|||||||||INTC|||||||||FALSE|||\
    2020-03-22T09:00:00Z|DEAL|UNT:5|||MV:1|||XLON|||||||||||||||||||||||NORE||||||FALSE";

// What CXL needs is there, and nothing else.
const CXL: [u8; 109] = *b"\
    CXL|R1||00000000000000000098||00000000000000000098||||||||||||||||||||||||||||||||||||||||||||||||||\
    |||||||||";

// The base with other bytes as its cells from one to another, counted from 1.
fn with_cells(base: &[u8], first: usize, last: usize, cells: &[u8]) -> Filled<MOST> {
    let mut line = Filled::new();
    if (1 <= first) & (1 <= last) {
        let start = behind(base, b'|', first - 1);
        let end = place_of(base, b'|', behind(base, b'|', last - 1));
        line.push_all(text::head(base, start));
        line.push_all(cells);
        line.push_all(text::rest(base, end));
    }
    line
}

// How many are found, in front of the code of the first.
fn told(flags: &[bool; 65]) -> u64 {
    let count = flags.iter().filter(|flag| **flag).count();
    match flags.iter().position(|flag| *flag) {
        Some(first) => count as u64 * 10000 + 1001 + first as u64,
        None => 0,
    }
}

// The form findings of a line; 10, as the refusal, where it has not 65 cells.
fn found_in(line: &[u8]) -> u64 {
    cells::split(line).map_or(10, |split| told(&forms::form_findings(&split)))
}

// The last of the cells that a call names: the only one, where it names one.
fn last_named(call: &[u8]) -> usize {
    let last = word(call, 2);
    if last.is_empty() {
        return number(word(call, 1)) as usize;
    }
    number(last) as usize
}

// The form findings of a base with other bytes as the cells that a call names.
fn found_with(base: &[u8], call: &[u8], cells: &[u8]) -> u64 {
    let first = number(word(call, 1)) as usize;
    let line = with_cells(base, first, last_named(call), cells);
    found_in(line.as_slice())
}

// line on a line; new.F and cxl.F on a cell, newx.F and cxlx.F on a cell in hexadecimal; with .F.L for .F on the cells F to L,
// a bar between each two.
pub fn of_forms(call: &[u8], input: &[u8]) -> Option<u64> {
    if text::same(call, b"line") {
        return Some(found_in(input));
    }
    if text::starts_with(call, b"new.") {
        return Some(found_with(&NEW, call, input));
    }
    if text::starts_with(call, b"cxl.") {
        return Some(found_with(&CXL, call, input));
    }
    let cells = unhex(input);
    if text::starts_with(call, b"newx.") {
        return Some(found_with(&NEW, call, cells.as_slice()));
    }
    if text::starts_with(call, b"cxlx.") {
        return Some(found_with(&CXL, call, cells.as_slice()));
    }
    None
}

// Whether cell f of a line of 65 is the word.
fn is_cell(line: &[u8], f: usize, bytes: &[u8]) -> bool {
    cells::split(line).is_some_and(|split| text::same(split.cell(f), bytes))
}

// A place out of the table of starts or of ends.
fn place_in(table: &[usize; 65], f: usize) -> Option<u64> {
    let place = table.get(f.checked_sub(1)?)?;
    Some(*place as u64)
}

// whole, start.F, end.F and cell.F.WORD on a line.
pub fn of_cells(call: &[u8], input: &[u8]) -> Option<u64> {
    let f = number(word(call, 1)) as usize;
    let split = cells::split(input);
    if text::same(call, b"whole") {
        return Some(u64::from(split.is_some()));
    }
    if text::starts_with(call, b"start.") {
        return place_in(&split.map_or([0; 65], |split| split.starts), f);
    }
    if text::starts_with(call, b"end.") {
        return place_in(&split.map_or([0; 65], |split| split.ends), f);
    }
    if text::starts_with(call, b"cell.") {
        return Some(u64::from(is_cell(input, f, word(call, 2))));
    }
    None
}

// The place where a reader of the line stands after some steps.
fn place_after_steps(line: &[u8], steps: usize) -> usize {
    (0..steps).fold(0, |at, _| reader::step_from(line, at).next)
}

// How many steps of a reader hand back a cell: no line has more cells than one for each byte, and one; the step behind them is done.
fn steps_in(line: &[u8]) -> Option<u64> {
    let mut at = 0;
    for n in 0..line.len() + 2 {
        let step = reader::step_from(line, at);
        if step.done {
            return Some(n as u64);
        }
        at = step.next;
    }
    None
}

// Whether the cell that starts at a place is the word, by one step of a reader, which is not done.
fn is_taken(line: &[u8], at: usize, bytes: &[u8]) -> bool {
    let step = reader::step_from(line, at);
    !step.done & text::same(text::head(text::rest(line, at), step.length), bytes)
}

// What a reader at a place does: the cell that it hands back, where it stands, and whether nothing is left.
fn after_steps(call: &[u8], line: &[u8], at: usize, bytes: &[u8]) -> Option<u64> {
    let step = reader::step_from(line, at);
    match call {
        b"cell" => Some(u64::from(is_taken(line, at, bytes))),
        b"place" => Some(at as u64),
        b"done" => Some(u64::from(step.done & (step.length == 0) & (step.next == at))),
        _ => None,
    }
}

// steps, first.WORD, and after K steps after.K.cell.WORD, after.K.place and after.K.done on a line.
pub fn of_reader(call: &[u8], input: &[u8]) -> Option<u64> {
    if text::same(call, b"steps") {
        return steps_in(input);
    }
    if text::starts_with(call, b"first.") {
        return Some(u64::from(text::same(reader::first(input), word(call, 1))));
    }
    if text::starts_with(call, b"after.") {
        let at = place_after_steps(input, number(word(call, 1)) as usize);
        return after_steps(word(call, 2), input, at, word(call, 3));
    }
    None
}
