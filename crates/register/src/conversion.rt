// A register of version 1 written into another buffer as version 2.
ghost use Rattle.std.specs.Prelude.{◌≡◌, ◌++◌, ◌≤◌, ◌*◌, ◌+◌, length, drop};
ghost use Rattle.std.proofs.lemmas.List.Edits.{sets};
ghost use Rattle.text.specs.Ascii.{ascii};
ghost use Rattle.register.specs.Frame.{place};
ghost use Rattle.register.specs.Written.{little_bytes};
ghost use Rattle.register.specs.Conversion.{undated, Converted};
ghost use Rattle.register.specs.Refused.{rows_to_convert};

use crate::frame::{row_width, used};
use crate::pairs::copy_in;
use crate::writes::write_le32;

// Why a register is not converted, by its number.
#[derive(Clone, Copy, PartialEq, Eq)]
enum Refusal {
    // the source is badly framed, or not of version 1
    Source = 6,
    // the target has no room for the rows
    Target = 12,
}

fn rows_to_convert(from: &[u8], to: &[u8]) -> Result<u32, Refusal>
    ensures { result ≡ rows_to_convert from.now to.now }
{
    if row_width(from) != 74 {
        return Err(Refusal::Source);
    }
    let count = used(from);
    if to.len() < 9 + count as usize * 78 {
        return Err(Refusal::Target);
    }
    Ok(count)
}

// Mark, version 2 and the used count.
fn write_head(to: &mut [u8], count: u32)
    requires { 9 ≤ length to.old }
    ensures { to.new ≡ sets to.old 0 (ascii "TRN" ++ (little_bytes 2 2 ++ little_bytes 4 count)) }
{
    copy_in(to, 0, b"TRN");
    copy_in(to, 3, &2u16.to_le_bytes());
    write_le32(to, 5, count);
}

// Writes the first rows, each with day 0 behind it.
fn write_rows(from: &[u8], to: &mut [u8], count: usize)
    requires { (place 0 count ≤ length from.now) × (place 4 count ≤ length to.old) }
    ensures { to.new ≡ sets to.old 9 (undated count (drop 9 from.now)) }
{
    for row in 0..count {
        let at = 9 + row * 74;
        copy_in(to, 9 + row * 78, &from[at..at + 74]);
        write_le32(to, 9 + row * 78 + 74, 0);
    }
}

// The used rows in their places, each with day 0. Bytes behind them stay, and all where the answer is not 0. The answer is a number, which the C
// interface hands on.
pub fn convert(from: &[u8], to: &mut [u8]) -> u16
    ensures { Converted from.now to.old result to.new }
{
    match rows_to_convert(from, to) {
        Ok(count) => {
            write_head(to, count);
            write_rows(from, to, count as usize);
            0
        }
        Err(refusal) => refusal as u16,
    }
}
