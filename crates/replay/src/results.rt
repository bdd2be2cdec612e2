// The result of a case: numbers in bytes, least byte first, one behind the other.
ghost use Rattle.buffer.specs.Kept.{Kept};
ghost use Rattle.replay.specs.Numbers.{each_in};
ghost use Rattle.replay.specs.Results.{written};

use buffer::keep_all;
use verdict::Verdict;

// Words and entries are kept by a loop each: `to_le_bytes` is a method of each of the two types by itself, and a trait of our own for
// it, with its law and two impls, is longer than the second loop.
fn keep_words(out: &mut [u8], kept: usize, words: &[u64]) -> usize
    ensures { Kept out.old kept (each_in 8 words.now) out.new result }
{
    let mut n = kept;
    for word in words {
        n = keep_all(out, n, &word.to_le_bytes());
    }
    n
}

fn keep_entries(out: &mut [u8], kept: usize, entries: &[u16]) -> usize
    ensures { Kept out.old kept (each_in 2 entries.now) out.new result }
{
    let mut n = kept;
    for entry in entries {
        n = keep_all(out, n, &entry.to_le_bytes());
    }
    n
}

// Into a slice that `report` lends, since what is expected of the case is read over it: a `Text` lends no bytes to be changed.
pub fn keep_result(out: &mut [u8], verdict: Verdict, findings: &[u16], register: &[u8]) -> usize
    ensures { Kept out.old 0 (written verdict findings.now register.now) out.new result }
{
    let words = verdict.words;
    let counted = keep_entries(out, 0, &[verdict.answer, verdict.count]);
    let worded = keep_words(out, counted, &words);
    let listed = keep_entries(out, worded, findings);
    keep_all(out, listed, register)
}
