// What an accepted line leaves in a register.
ghost use Rattle.std.specs.Prelude.{◌≡◌, ◌∷◌, ◌⊎◌, ◌≤◌, ◌+◌, ◌-◌, length};
ghost use Rattle.std.proofs.lemmas.List.Edits.{sets};
ghost use Rattle.register.specs.Frame.{row_width};
ghost use Rattle.register.specs.Rows.{state_byte};
ghost use Rattle.register.specs.Written.{little_bytes, value_of, restated, appended, put, set_live, set_cancelled};

use crate::frame::{full, is_used, used};
use crate::pairs::copy_in;
use crate::rows::{Standing, state_byte};

// What a row keeps of its pair: how it stands, and since which day.
#[derive(Clone, Copy)]
pub struct Kept {
    pub standing: Standing,
    pub day: u32,
}

pub fn write_le32(bytes: &mut [u8], at: usize, number: u32)
    requires { at + 4 ≤ length bytes.old }
    ensures { bytes.new ≡ sets bytes.old at (little_bytes 4 number) }
{
    copy_in(bytes, at, &number.to_le_bytes());
}

// Writes what a row keeps of its pair: the state and, where the row has the bytes for it, the day.
#[tactic(auto, using(crate::proofs::WriteLaws::day_stored, crate::proofs::WriteLaws::state_stored))]
fn write_value(register: &mut [u8], width: usize, at: usize, kept: Kept)
    requires { ((width ≡ 74) ⊎ (width ≡ 78)) × (at + (width - 73) ≤ length register.old) }
    ensures { register.new ≡ sets register.old at (state_byte kept.standing ∷ little_bytes (width - 74) kept.day) }
{
    register[at] = state_byte(kept.standing);
    if width == 78 {
        write_le32(register, at + 1, kept.day);
    }
}

// Writes the value of a used row.
fn restate(register: &mut [u8], width: usize, row: usize, kept: Kept)
    requires { width ≡ row_width register.old }
    ensures { register.new ≡ restated register.old row (value_of register.old kept.standing kept.day) }
{
    if is_used(register, width, row) {
        write_value(register, width, 9 + row * width + 73, kept);
    }
}

// Writes a row behind the used ones, where there is room for it.
fn append(register: &mut [u8], width: usize, pair: &[u8; 73], kept: Kept)
    requires { width ≡ row_width register.old }
    ensures { register.new ≡ appended register.old pair.now (value_of register.old kept.standing kept.day) }
{
    if (width == 0) | full(register, width) {
        return;
    }
    let count = used(register);
    let at = 9 + count as usize * width;
    copy_in(register, at, pair);
    write_value(register, width, at + 73, kept);
    write_le32(register, 5, count + 1);
}

// Writes the pair's value, in the row where it was found, else in the next one.
#[tactic(auto, unfolding(crate::specs::Written::put))]
fn put(register: &mut [u8], width: usize, found: Option<usize>, pair: &[u8; 73], kept: Kept)
    requires { width ≡ row_width register.old }
    ensures { register.new ≡ put register.old found pair.now (value_of register.old kept.standing kept.day) }
{
    match found {
        Some(row) => restate(register, width, row, kept),
        None => append(register, width, pair, kept),
    }
}

// The pair, found there, is live from that day on.
pub fn set_live(register: &mut [u8], width: usize, found: Option<usize>, pair: &[u8; 73], day: u32)
    requires { width ≡ row_width register.old }
    ensures { register.new ≡ set_live register.old found pair.now day }
{
    let standing = Standing::Live;
    put(register, width, found, pair, Kept { standing, day });
}

// The pair that was found there is cancelled from that day on.
#[tactic(auto, unfolding(crate::specs::Written::set_cancelled))]
pub fn set_cancelled(register: &mut [u8], width: usize, found: Option<usize>, day: u32)
    requires { width ≡ row_width register.old }
    ensures { register.new ≡ set_cancelled register.old found day }
{
    if let Some(row) = found {
        let standing = Standing::Cancelled;
        restate(register, width, row, Kept { standing, day });
    }
}
