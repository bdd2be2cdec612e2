// Where a pair stands in a register, and how.
ghost use Rattle.std.specs.Prelude.{◌≡◌, ◌⊎◌, ◌+◌, ◌≤◌, length};
ghost use Rattle.text.specs.Stride.{Rowed, next_row};
ghost use Rattle.register.specs.Frame.{row_width};
ghost use Rattle.register.specs.Rows.{state_byte, state_of, first_row, standing, standing_at};

use crate::frame::{is_used, row_width, used};
use text::{begins_with, byte_at, head, next_row, rest, word};

#[derive(Clone, Copy, PartialEq, Eq)]
pub enum Standing {
    Absent,
    Live,
    Cancelled,
}

// The state of a row whose pair stands so, as the byte that the register has for it. A match here and below, and no cast: the bytes are the form of
// the register, as `value_of` of specs/ has it.
pub fn state_byte(standing: Standing) -> u8
    ensures { result ≡ state_byte standing }
{
    match standing {
        Standing::Absent => 0,
        Standing::Live => 1,
        Standing::Cancelled => 2,
    }
}

fn state_of(state: u8) -> Standing
    ensures { result ≡ state_of state }
{
    if state == state_byte(Standing::Live) {
        return Standing::Live;
    }
    Standing::Cancelled
}

// Where the word of a pair stands by which other pairs' rows are passed: the last eight bytes of the reference, in which references mostly
// differ, or the first eight where it is shorter.
fn word_place(pair: &[u8; 73]) -> usize
    ensures { result + 8 ≤ 73 }
{
    match pair[20] {
        length @ 8..=52 => 13 + length as usize,
        _ => 21,
    }
}

// The next row that has the word. The widths are named, since the compiler makes less of each row that is passed where it knows
// the width.
fn next_with(rows: &[u8], from: usize, width: usize, place: usize, asked: u64) -> usize
    requires { ((width ≡ 74) ⊎ (width ≡ 78)) × (Rowed width place 8 × (from ≤ length rows.now)) }
    ensures { result ≡ next_row width place 8 asked rows.now from }
{
    if width == 78 {
        return next_row(rows, from, 78, place, 8, asked);
    }
    next_row(rows, from, 74, place, 8, asked)
}

// The number of the first used row whose first 73 bytes are the pair's, counted from 0. Rows that have another word are passed four a turn,
// some 13 instructions a row; `chunks_exact(width).position(..)` with `starts_with` takes some 33 (both counted in plain Rust).
pub fn find(register: &[u8], width: usize, pair: &[u8; 73]) -> Option<usize>
    requires { width ≡ row_width register.now }
    ensures { result ≡ first_row register.now pair.now }
{
    if width == 0 {
        return None;
    }
    let rows = head(register, 9 + used(register) as usize * width);
    let whole = &pair[..];
    let place = word_place(pair);
    let asked = word(whole, place, 8);
    let mut at = 9;
    while at < rows.len() {
        if begins_with(rest(rows, at), whole) {
            return Some((at - 9) / width);
        }
        at = next_with(rows, at + width, width, place, asked);
    }
    None
}

// How a pair stands whose place is known already: no row but that one is read.
pub fn standing_at(register: &[u8], width: usize, found: Option<usize>) -> Standing
    requires { width ≡ row_width register.now }
    ensures { result ≡ standing_at register.now found }
{
    match found {
        Some(row) if is_used(register, width, row) => {
            state_of(byte_at(register, 9 + row * width + 73))
        }
        _ => Standing::Absent,
    }
}

pub fn standing_of(register: &[u8], pair: &[u8; 73]) -> Standing
    ensures { result ≡ standing register.now pair.now }
{
    let width = row_width(register);
    standing_at(register, width, find(register, width, pair))
}
