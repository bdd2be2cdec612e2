// What the program prints: for a line its number, the answer, n and the codes; for the day's summary a line for each record. Numbers are in
// decimal, parted by single spaces, and LF ends a line.
//
// What is pushed stands in a `Text` behind what that keeps, and what is put stands there alone. `lent` puts the same at the start of a slice of
// any length.
#![tactic(auto)]

ghost use Rattle.std.specs.Prelude.{◌≡◌, [], ◌∷◌, ◌++◌, take};
ghost use Rattle.buffer.specs.Text.{added};
ghost use Rattle.printing.specs.Printed.{decimal, spaced, printed};

mod lent;
mod report;

use buffer::Text;
pub use lent::{LONGEST, keep_answer, keep_row};
pub use report::{push_row, put_row};

fn push_number<const N: usize>(out: &mut Text<N>, n: u64)
    ensures { out.new ≡ added N out.old (decimal n) }
{
    let mut digits = [0u8; 20];
    let k = io::decimal(n, &mut digits);
    out.push_all(&digits[..k]);
}

fn push_spaced<const N: usize>(out: &mut Text<N>, n: u64)
    ensures { out.new ≡ added N out.old (spaced (n ∷ [])) }
{
    out.push(b' ');
    push_number(out, n);
}

fn push_codes<const N: usize>(out: &mut Text<N>, codes: &[u16])
    ensures { out.new ≡ added N out.old (spaced codes.now) }
{
    for &code in codes {
        push_spaced(out, u64::from(code));
    }
}

// The first entries, or all where there are fewer.
pub fn listed(findings: &[u16], count: u16) -> &[u16]
    ensures { result.now ≡ take count findings.now }
{
    findings.get(..usize::from(count)).unwrap_or(findings)
}

// What stands in front of the codes.
fn push_told<const N: usize>(out: &mut Text<N>, number: u64, answer: u16, count: u16)
    ensures { out.new ≡ added N out.old (decimal number ++ spaced (answer ∷ count ∷ [])) }
{
    push_number(out, number);
    push_spaced(out, u64::from(answer));
    push_spaced(out, u64::from(count));
}

pub fn push_answer<const N: usize>(
    out: &mut Text<N>,
    number: u64,
    answer: u16,
    count: u16,
    codes: &[u16],
)
    ensures { out.new ≡ added N out.old (printed number answer count codes.now) }
{
    push_told(out, number, answer, count);
    push_codes(out, codes);
    out.push(b'\n');
}
