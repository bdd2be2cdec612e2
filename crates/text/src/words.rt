// Whole words, words out of a row of words, and fixed shapes.
ghost use Rattle.std.specs.Prelude.{◌≡◌};
ghost use Rattle.text.specs.Word.{same, starts_with, one_of};
ghost use Rattle.text.specs.Shape.{suits, shape};

use crate::classes::{Class, is_in};

// Compared from the word's end, since words and identifiers that differ mostly begin alike: its last byte is mostly all
// that another word costs.
pub fn starts_with(s: &[u8], word: &[u8]) -> bool
    ensures { result ≡ starts_with word.now s.now }
{
    if s.len() < word.len() {
        return false;
    }
    for i in (0..word.len()).rev() {
        if s[i] != word[i] {
            return false;
        }
    }
    true
}

#[tactic(auto, using(crate::proofs::WordLaws::same_is))]
pub fn same(s: &[u8], word: &[u8]) -> bool
    ensures { result ≡ same word.now s.now }
{
    (s.len() == word.len()) & starts_with(s, word)
}

// One of the words of `width` bytes that stand one after the other in `words`. No bytes begin every word, so a width of
// 0 goes through them as 1 does.
pub fn one_of(s: &[u8], words: &[u8], width: usize) -> bool
    ensures { result ≡ one_of width words.now s.now }
{
    if s.len() != width {
        return false;
    }
    for word in words.chunks_exact(width.max(1)) {
        if starts_with(word, s) {
            return true;
        }
    }
    false
}

// A letter of a pattern: d a digit, u or * a capital, n a capital or digit, h a capital or #. Another byte that is
// no small letter stands for itself.
#[tactic(auto, unfolding(crate::specs::Shape::suits))]
fn fits_letter(b: u8, letter: u8) -> bool
    ensures { result ≡ suits letter b }
{
    match letter {
        b'd' => is_in(b, Class::Digit),
        b'u' | b'*' => is_in(b, Class::Capital),
        b'n' => is_in(b, Class::CapitalDigit),
        b'h' => is_in(b, Class::CapitalHash),
        b'a'..=b'z' => false,
        _ => b == letter,
    }
}

// As long as the pattern, each byte suiting its letter.
#[tactic(auto, using(crate::proofs::WordLaws::shape_each, crate::proofs::WordLaws::other_length))]
pub fn shaped(s: &[u8], pattern: &[u8]) -> bool
    ensures { result ≡ shape pattern.now s.now }
{
    if s.len() != pattern.len() {
        return false;
    }
    s.iter()
        .zip(pattern)
        .all(|(b, letter)| fits_letter(*b, *letter))
}
