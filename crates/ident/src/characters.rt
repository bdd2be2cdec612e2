// What a character of a code counts.
ghost use Rattle.std.specs.Prelude.{◌≡◌, cond};
ghost use Rattle.text.specs.Class.{in_class};
ghost use Rattle.ident.specs.Written.{value_of};

use text::Class;

// A = 10 to Z = 35; 0 where it is no capital.
#[tactic(auto, using(crate::proofs::WrittenLaws::capital_yes), unfolding(crate::specs::Written::value_of))]
fn letter_of(b: u8) -> u32
    ensures { result ≡ cond (in_class Class.Capital b) (value_of b) 0 }
{
    if text::is_in(b, Class::Capital) {
        return (b - b'A') as u32 + 10;
    }
    0
}

// A digit itself, A = 10 to Z = 35.
#[tactic(auto, unfolding(crate::specs::Written::value_of))]
pub fn value_of(b: u8) -> u32
    ensures { result ≡ value_of b }
{
    if text::is_in(b, Class::Capital) {
        return letter_of(b);
    }
    text::digit_of(b)
}

// The same, added and not chosen: as a letter and as a digit, one of which is 0. Where characters stand in straight line,
// eight of them are then worked out at once, and nothing is asked that a processor would have to guess.
#[tactic(auto, using(crate::proofs::WrittenLaws::value_sum, crate::proofs::WrittenLaws::value_small))]
pub fn added_value(b: u8) -> u32
    ensures { result ≡ value_of b }
{
    letter_of(b) + text::digit_of(b)
}
