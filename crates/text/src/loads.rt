// Several bytes read at once, as one number, and rows that are looked through by such a number.
ghost use Rattle.std.specs.Prelude.{◌≡◌, ◌+◌, ◌*◌, ◌≤◌, ◌<◌, length, drop};
ghost use Rattle.text.specs.Number.{first_bytes, little_endian};
ghost use Rattle.text.specs.Word.{starts_with};
ghost use Rattle.text.specs.Stride.{Sized, Rowed, some_of_four, next_row, PassedTo};

// The N bytes from a place on, which are there: so they are one load, where `bytes_from` of numbers.rt tests each place.
fn bytes_at<const N: usize>(s: &[u8], at: usize) -> [u8; N]
    requires { at + N ≤ length s.now }
    ensures { result ≡ first_bytes N (drop at s.now) }
{
    let mut bytes = [0; N];
    bytes.copy_from_slice(&s[at..at + N]);
    bytes
}

// The number that 2, 4 or 8 bytes write.
#[tactic(auto, using(crate::proofs::ByteLaws::two_read, crate::proofs::ByteLaws::four_read, crate::proofs::ByteLaws::eight_read))]
pub fn word(s: &[u8], at: usize, size: usize) -> u64
    requires { Sized size × (at + size ≤ length s.now) }
    ensures { result ≡ little_endian size (drop at s.now) }
{
    match size {
        8 => u64::from_le_bytes(bytes_at(s, at)),
        4 => u64::from(u32::from_le_bytes(bytes_at(s, at))),
        _ => u64::from(u16::from_le_bytes(bytes_at(s, at))),
    }
}

// As `starts_with`, many bytes at a time: for a word that is long and mostly there.
#[tactic(auto, using(crate::proofs::LoadLaws::begins_each))]
pub fn begins_with(s: &[u8], word: &[u8]) -> bool
    ensures { result ≡ starts_with word.now s.now }
{
    s.starts_with(word)
}

// One of the four rows from a place on has the word. Width, place, size and word stay parameters, as `next_row` is called
// with them: a struct would be made there for these two steps alone, which is no plainer.
fn in_four(s: &[u8], at: usize, width: usize, place: usize, size: usize, asked: u64) -> bool
    requires { Rowed width place size × (at + 4 * width ≤ length s.now) }
    ensures { result ≡ some_of_four width place size asked s.now at }
{
    (word(s, at + place, size) == asked)
        | (word(s, at + width + place, size) == asked)
        | (word(s, at + 2 * width + place, size) == asked)
        | (word(s, at + 3 * width + place, size) == asked)
}

// Rows with another word are passed four a turn: the place of four of which one has it, or of the last few.
// The place is counted by hand, here and in `next_row`: where the loop stops is the answer, which a `for` does not hold.
// Through 32 rows of 30 bytes it takes 130 instructions so and 149 with a `for` over the rows' numbers; through 47 rows
// 165 so and 211 by `chunks_exact` and `position`.
fn past_fours(s: &[u8], from: usize, width: usize, place: usize, size: usize, asked: u64) -> usize
    requires { Rowed width place size × (from ≤ length s.now) }
    ensures { PassedTo width place size asked s.now from result }
{
    if s.len() < 4 * width {
        return from;
    }
    let last = s.len() - 4 * width;
    let mut at = from;
    while at <= last {
        if in_four(s, at, width, place, size, asked) {
            return at;
        }
        at += 4 * width;
    }
    at
}

// The place of the next row that has the word. Widths that are constants where this is called make the turns of four a
// few instructions.
pub fn next_row(s: &[u8], from: usize, width: usize, place: usize, size: usize, asked: u64) -> usize
    requires { Rowed width place size × (from ≤ length s.now) }
    ensures { result ≡ next_row width place size asked s.now from }
{
    let mut at = past_fours(s, from, width, place, size, asked);
    while at + width <= s.len() {
        if word(s, at + place, size) == asked {
            return at;
        }
        at += width;
    }
    at
}
