// Code points of a text in UTF-8 (RFC 3629): none below U+0020, and not U+007F.
//
// The bytes are read once from left to right, by the syntax of RFC 3629 section 4. That this counts the code points
// which section 3 encodes is a theorem beside the contracts.
#![tactic(auto)]

ghost use Rattle.std.specs.Prelude.{◌≡◌};
ghost use Rattle.utf8.specs.Abnf.{first, awaited, after, starts, ended, points, points_within, count_within};

use text::{Class, all_of};

// What may come next: the first byte of a code point or the end; or a byte of a range and then a number of
// continuation bytes; or nothing, since the bytes so far begin no text. Three cases, as the definitions have them: an
// Option of the first two would ask for each twice.
#[derive(Clone, Copy)]
enum Next {
    First,
    Tail(u8, u8, u8),
    Never,
}

// The lines of the syntax, by their first byte, without its controls. Where the second byte has a narrower range, the
// others would write a shorter code point again, a surrogate, or one above U+10FFFF.
#[tactic(auto, unfolding(crate::specs::Abnf::look))]
fn first(b: u8) -> Next
    ensures { result ≡ first b }
{
    match b {
        0x20..=0x7e => Next::First,
        0xc2..=0xdf => Next::Tail(0x80, 0xbf, 0),
        0xe0 => Next::Tail(0xa0, 0xbf, 1),
        0xe1..=0xec => Next::Tail(0x80, 0xbf, 1),
        0xed => Next::Tail(0x80, 0x9f, 1),
        0xee..=0xef => Next::Tail(0x80, 0xbf, 1),
        0xf0 => Next::Tail(0x90, 0xbf, 2),
        0xf1..=0xf3 => Next::Tail(0x80, 0xbf, 2),
        0xf4 => Next::Tail(0x80, 0x8f, 2),
        _ => Next::Never,
    }
}

// So many continuation bytes, then the next code point.
fn awaited(more: u8) -> Next
    ensures { result ≡ awaited more }
{
    match more {
        0 => Next::First,
        _ => Next::Tail(0x80, 0xbf, more - 1),
    }
}

fn after(next: Next, b: u8) -> Next
    ensures { result ≡ after next b }
{
    match next {
        Next::First => first(b),
        Next::Tail(least, most, more) if least <= b && b <= most => awaited(more),
        _ => Next::Never,
    }
}

// A code point is counted at its first byte: one that is cut off leaves no count.
fn starts(next: Next) -> usize
    ensures { result ≡ starts next }
{
    match next {
        Next::First => 1,
        _ => 0,
    }
}

fn ended(next: Next, n: usize) -> Option<usize>
    ensures { result ≡ ended next n }
{
    match next {
        Next::First => Some(n),
        _ => None,
    }
}

// How many code points the bytes are, if all of them are well-formed and allowed.
pub fn code_points(s: &[u8]) -> Option<usize>
    ensures { result ≡ points s.now }
{
    let mut next = Next::First;
    let mut n = 0;
    for &b in s {
        n += starts(next);
        next = after(next, b);
    }
    ended(next, n)
}

fn count_within(points: Option<usize>, most: usize) -> bool
    ensures { result ≡ count_within most points }
{
    points.is_some_and(|n| (1 <= n) & (n <= most))
}

// From 1 to `most` code points, all well-formed and allowed. Most names are of plain letters, and then each byte is a code point.
#[tactic(auto, using(crate::proofs::Laws::plain_within), unfolding(crate::specs::Abnf::points_within))]
pub fn points_within(s: &[u8], most: usize) -> bool
    ensures { result ≡ points_within most s.now }
{
    if all_of(s, Class::Printable) {
        return (1 <= s.len()) & (s.len() <= most);
    }
    count_within(code_points(s), most)
}
