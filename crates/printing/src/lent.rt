// The same at the start of a slice that is lent, whatever it held: what has no room is dropped, and what stands behind it stays. Each answers how
// many bytes it put.
ghost use Rattle.std.specs.Prelude.{◌≤◌};
ghost use Rattle.buffer.specs.Kept.{Kept};
ghost use Rattle.table.specs.Rows.{record_count};
ghost use Rattle.printing.specs.Printed.{spaced, printed};
ghost use Rattle.printing.specs.Report.{part_of, PutFirst};

use crate::report::put_row;
use crate::{push_spaced, push_told};
use buffer::{Text, keep, keep_all};
use table::Table;
use verdict::CODE_COUNT;

// Its number, the answer, n and the codes, of up to 20 digits each and all but the first behind a space, and LF: no answer is longer, and no
// line of the summary.
pub const LONGEST: usize = 21 * (3 + CODE_COUNT);

// There may be more codes than any `Text` has room for, so each is put together by itself.
fn keep_codes(out: &mut [u8], kept: usize, codes: &[u16]) -> usize
    ensures { Kept out.old kept (spaced codes.now) out.new result }
{
    let mut n = kept;
    for &code in codes {
        let mut part: Text<21> = Text::new();
        push_spaced(&mut part, u64::from(code));
        n = keep_all(out, n, part.as_slice());
    }
    n
}

pub fn keep_answer(out: &mut [u8], number: u64, answer: u16, count: u16, codes: &[u16]) -> usize
    ensures { Kept out.old 0 (printed number answer count codes.now) out.new result }
{
    let mut begun: Text<62> = Text::new();
    push_told(&mut begun, number, answer, count);
    let told = keep_all(out, 0, begun.as_slice());
    let coded = keep_codes(out, told, codes);
    keep(out, coded, b'\n')
}

// The line of a row of the table. A free record has none.
pub fn keep_row(out: &mut [u8], table: &Table, i: usize) -> usize
    requires { i ≤ record_count }
    ensures { PutFirst (part_of table.now i) out.old out.new result }
{
    let mut line: Text<LONGEST> = Text::new();
    put_row(&mut line, table, i);
    keep_all(out, 0, line.as_slice())
}
