// Total reads: past the end of a slice there is nothing, and a byte there is 0.
ghost use Rattle.std.specs.Prelude.{◌≡◌, ◌-◌, take, drop, get_or};

pub fn byte_at(s: &[u8], i: usize) -> u8
    ensures { result ≡ get_or s.now i 0 }
{
    s.get(i).copied().unwrap_or(0)
}

// What stands from a place on.
pub fn rest(s: &[u8], at: usize) -> &[u8]
    ensures { result.now ≡ drop at s.now }
{
    s.get(at..).unwrap_or(&[])
}

// The first n bytes, or all where there are fewer.
pub fn head(s: &[u8], n: usize) -> &[u8]
    ensures { result.now ≡ take n s.now }
{
    &s[..n.min(s.len())]
}

// What stands from `start` up to `end`, which is nothing where `end` is not after `start`.
pub fn part(s: &[u8], start: usize, end: usize) -> &[u8]
    ensures { result.now ≡ take (end - start) (drop start s.now) }
{
    head(rest(s, start), end.saturating_sub(start))
}
