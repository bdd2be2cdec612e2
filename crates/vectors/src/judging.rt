// Rules by CFI, and verdicts.
use crate::reading::{number, word};
use std::array;
use verdict::CODE_COUNT;

// What stands in a findings buffer before.
const STAYS: u16 = 7;

// A number with one more binary digit behind it, as long as there is room.
fn one_digit_more(v: u64, flag: bool) -> u64 {
    if v < 4611686018427387904 {
        return v * 2 + u64::from(flag);
    }
    v
}

// Flags as binary digits, the first one the highest.
fn binary(flags: &[bool]) -> u64 {
    flags.iter().fold(0, |v, flag| one_digit_more(v, *flag))
}

fn small(s: &[u8]) -> u8 {
    (text::number_in(s) % 256) as u8
}

// cfi.USUAL.CELL.KIND on a CFI: every cell is of the usual kind but one; debt and bond on a CFI.
pub fn of_cfi(call: &[u8], input: &[u8]) -> Option<u64> {
    let matched = cfi::debt_and_bond(input);
    if text::same(call, b"debt") {
        return Some(u64::from(matched[0]));
    }
    if text::same(call, b"bond") {
        return Some(u64::from(matched[1]));
    }
    if !text::starts_with(call, b"cfi.") {
        return None;
    }
    let mut kinds = [small(word(call, 1)); 66];
    if let Some(kind) = kinds.get_mut(number(word(call, 2)) as usize) {
        *kind = small(word(call, 3));
    }
    let flags = cfi::cfi_findings(&kinds, input);
    Some(binary(&flags))
}

// The flags from a place up to another one are set: every one, or every other one.
fn set_between(start: usize, end: usize, every: bool) -> [bool; CODE_COUNT] {
    array::from_fn(|i| (start <= i) & (i < end) & (every | (i % 2 == 0)))
}

// A group of n flags, every other one set, in place of those from a place on.
fn with_group(flags: [bool; CODE_COUNT], at: usize, n: usize) -> [bool; CODE_COUNT] {
    let group = set_between(0, n, false);
    verdict::place(flags, at, &group[..n.min(CODE_COUNT)])
}

// 32 of the bits of the verdict's words, counted in halves of a word from the first one's lower.
fn half(flags: &[bool; CODE_COUNT], h: usize) -> Option<u64> {
    let words = verdict::judged(flags).words;
    let w = words.get(h / 2)?;
    Some(if h % 2 == 0 {
        *w % 4294967296
    } else {
        *w / 4294967296
    })
}

// An entry of a findings buffer, after the codes are listed there by the verdict's words.
fn entry(flags: &[bool; CODE_COUNT], k: usize, findings: &mut [u16]) -> Option<u64> {
    verdict::list_by_words(verdict::judged(flags).words, findings);
    findings.get(k).map(|code| u64::from(*code))
}

// The answer of a refusal, whose count and words are 0.
fn refusal(no: u16) -> Option<u64> {
    let v = verdict::refused(no);
    if (v.count == 0) & (v.words == [0; 3]) {
        return Some(u64::from(v.answer));
    }
    None
}

// answer, count, half.H, entry.K, short.K and group.AT.N.H on START.END, the flags that are set. The findings buffer of entry is
// one entry longer than the codes, and that of short is too short by one where every flag is set.
fn of_flags(call: &[u8], input: &[u8]) -> Option<u64> {
    let flags = set_between(
        number(word(input, 0)) as usize,
        number(word(input, 1)) as usize,
        true,
    );
    let k = number(word(call, 1)) as usize;
    if text::same(call, b"answer") {
        return Some(u64::from(verdict::judged(&flags).answer));
    }
    if text::same(call, b"count") {
        return Some(u64::from(verdict::judged(&flags).count));
    }
    if text::starts_with(call, b"half.") {
        return half(&flags, k);
    }
    if text::starts_with(call, b"entry.") {
        return entry(&flags, k, &mut [STAYS; CODE_COUNT + 1]);
    }
    if text::starts_with(call, b"short.") {
        return entry(&flags, k, &mut [STAYS; CODE_COUNT - 1]);
    }
    if text::starts_with(call, b"group.") {
        let placed = with_group(flags, k, number(word(call, 2)) as usize);
        return half(&placed, number(word(call, 3)) as usize);
    }
    None
}

// refused on a number; entries_needed on polish and on base; the calls on flags.
pub fn of_verdict(call: &[u8], input: &[u8]) -> Option<u64> {
    match call {
        b"refused" => refusal((text::number_in(input) % 65536) as u16),
        b"entries_needed" => { Some(verdict::entries_needed(text::same(input, b"polish")) as u64) }
        _ => of_flags(call, input),
    }
}
