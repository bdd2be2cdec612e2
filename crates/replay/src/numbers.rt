// Numbers in bytes, least byte first.
ghost use Rattle.std.specs.Prelude.{◌≡◌};
ghost use Rattle.replay.specs.Numbers.{entries_in};

// The most entries that a findings buffer has.
pub const ENTRIES: usize = 200;

// The entries of a findings buffer, of two bytes each; those that are missing are 0.
pub fn entries_in(s: &[u8]) -> [u16; ENTRIES]
    ensures { result ≡ entries_in 200 s.now }
{
    let mut entries = [0u16; ENTRIES];
    for i in 0..ENTRIES {
        entries[i] = text::le16(s, 2 * i);
    }
    entries
}
