// A buffer that is filled from its start: what has no room is dropped. `Text` is one; `keep` and `keep_all`, which it stands on, fill a lent slice.
#![tactic(auto)]

ghost use Rattle.std.specs.Prelude.{[], ◌∷◌};
ghost use Rattle.buffer.specs.Kept.{Kept};

mod kept;

pub use kept::Text;

// Adds a byte to the first `kept`, and answers how many there are now.
pub fn keep(buffer: &mut [u8], kept: usize, b: u8) -> usize
    ensures { Kept buffer.old kept (b ∷ []) buffer.new result }
{
    if kept < buffer.len() {
        buffer[kept] = b;
        return kept + 1;
    }
    kept
}

pub fn keep_all(buffer: &mut [u8], kept: usize, bytes: &[u8]) -> usize
    ensures { Kept buffer.old kept bytes.now buffer.new result }
{
    let mut n = kept;
    for &b in bytes {
        n = keep(buffer, n, b);
    }
    n
}
