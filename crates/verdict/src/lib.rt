// From the flags of the codes to a verdict: three words with one bit a code, the count, the codes listed.
//
// Every public function answers for every input. Flags stand in the order of the codes, which rises.
#![tactic(auto)]

ghost use Rattle.std.specs.Prelude.{◌≡◌, ◌+◌, ◌≤◌, length};
ghost use Rattle.std.specs.Int.Count.{ones};
ghost use Rattle.verdict.specs.Codes.{entries_needed};
ghost use Rattle.verdict.specs.Verdict.{word_of, pick, verdict_of, refused_by};
ghost use Rattle.verdict.specs.Counted.{bits_set};
ghost use Rattle.verdict.specs.Findings.{put};
ghost use Rattle.verdict.specs.Bits.{bits_of, listed_by, Listed};

mod codes;

use crate::codes::CODES;
pub use codes::{BASE_COUNT, CODE_COUNT, RULE_COUNT};

#[repr(C)]
#[derive(Clone, Copy, PartialEq, Eq)]
pub struct Verdict {
    // 0, or the number of a refusal: the C interface has it so
    pub answer: u16,
    // the findings
    pub count: u16,
    // one bit a code, from the first word's lowest bit
    pub words: [u64; 3],
}

// The flags as binary digits, taken from the highest down.
fn word(flags: &[bool]) -> u64
    requires { length flags.now ≤ 64 }
    ensures { result ≡ word_of flags.now }
{
    let mut w: u64 = 0;
    for &flag in flags.iter().rev() {
        w = w * 2 + flag as u64;
    }
    w
}

fn ones_of(words: [u64; 3]) -> u16
    ensures { result ≡ bits_set words }
{
    (words[0].count_ones() + words[1].count_ones() + words[2].count_ones()) as u16
}

// The verdict on a line that is not refused. The count is taken from the words, so that it is how many bits are set.
pub fn judged(found: &[bool; CODE_COUNT]) -> Verdict
    ensures { result ≡ verdict_of found.now }
{
    let words = [
        word(&found[..64]),
        word(&found[64..128]),
        word(&found[128..]),
    ];
    Verdict {
        answer: 0,
        count: ones_of(words),
        words,
    }
}

// How many entries a findings buffer needs, with the codes for Polish identifiers or without.
pub fn entries_needed(polish: bool) -> usize
    ensures { result ≡ entries_needed polish }
{
    if polish { CODE_COUNT } else { BASE_COUNT }
}

// The number is the paper's, which the C interface has.
#[tactic(auto, unfolding(crate::specs::Verdict::refused_by))]
pub fn refused(no: u16) -> Verdict
    ensures { result ≡ refused_by no }
{
    Verdict {
        answer: no,
        count: 0,
        words: [0; 3],
    }
}

// The codes of a table whose bits are set in a word, the lowest bit first, into the entries from `from` on; behind the last of them.
// Bits without a code are passed over. The word's bits that are left are the state, and no index: an iterator over them would say no more. It is
// no twin of what raises a summary's counters: what is done with a bit differs, and a closure would hold both buffers.
fn list_bits(table: &[u16], word: u64, findings: &mut [u16], from: usize) -> usize
    requires { (length table.now ≤ 64) × (from + ones word ≤ length findings.old) }
    ensures { Listed (pick table.now (bits_of 64 word)) from findings.old result findings.new }
{
    let mut n = from;
    let mut left = word;
    while left != 0 {
        let lowest = left.trailing_zeros() as usize;
        if table.len() <= lowest {
            return n;
        }
        findings[n] = table[lowest];
        n += 1;
        left -= 1 << lowest;
    }
    n
}

// The codes whose bits are set in the words of a verdict, into the first entries; nothing is written where there are fewer entries than bits.
// A line has few findings, so that this is shorter than to ask each flag.
pub fn list_by_words(words: [u64; 3], findings: &mut [u16])
    ensures { findings.new ≡ listed_by words findings.old }
{
    if findings.len() < ones_of(words) as usize {
        return;
    }
    let first = list_bits(&CODES[..64], words[0], findings, 0);
    let second = list_bits(&CODES[64..128], words[1], findings, first);
    list_bits(&CODES[128..], words[2], findings, second);
}

// A group of flags in place of those from `at` on; a group that goes past the last code changes none.
pub fn place(base: [bool; CODE_COUNT], at: usize, group: &[bool]) -> [bool; CODE_COUNT]
    ensures { result ≡ put base at group.now }
{
    let mut found = base;
    if at <= CODE_COUNT && group.len() <= CODE_COUNT - at {
        found[at..at + group.len()].copy_from_slice(group);
    }
    found
}
