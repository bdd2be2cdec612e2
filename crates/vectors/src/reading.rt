// Reading the lines of cases: words, numbers, and bytes in hexadecimal.
ghost use Rattle.std.specs.Prelude.{◌≡◌, ◌≤◌, ◌<◌, min, length};

use buffer::{keep, keep_all};

// The most bytes that a case writes in hexadecimal.
pub const SPACE: usize = 2048;

// Bytes in a space of their own: what has no room is dropped. A `buffer::Text` lends no bytes to be changed, which a register asks for.
#[derive(Drop)]
pub struct Filled<const N: usize> {
    space: [u8; N],
    filled: usize,
    ghost inside: { filled ≤ length space },
}

impl<const N: usize> Filled<N> {
    pub fn new() -> Filled<N> {
        Filled {
            space: [0; N],
            filled: 0,
        }
    }

    fn push(&mut self, b: u8) {
        self.filled = keep(&mut self.space, self.filled, b);
    }

    pub fn push_all(&mut self, bytes: &[u8]) {
        self.filled = keep_all(&mut self.space, self.filled, bytes);
    }

    pub fn as_slice(&self) -> &[u8] {
        &self.space[..self.filled]
    }

    // Lends the bytes to what changes them.
    pub fn change<R, F: FnOnce(&mut [u8]) -> R>(&mut self, change: F) -> R
        requires { F.IsAlwaysCallable change }
    {
        change(&mut self.space[..self.filled])
    }
}

// What stands in front of a byte's first occurrence, and behind it: nothing where it does not occur.
pub fn parted(s: &[u8], b: u8) -> (&[u8], &[u8]) {
    let end = place_of(s, b, 0);
    (text::head(s, end), text::rest(s, end + 1))
}

// The first place of a byte from a place on, or the end.
pub fn place_of(s: &[u8], b: u8, from: usize) -> usize
    ensures { (min from (length s.now) ≤ result) × (result ≤ length s.now) }
{
    for i in from..s.len() {
        if s[i] == b {
            return i;
        }
    }
    s.len()
}

// The place behind a byte's occurrence of that number, counted from 1; the start for 0.
pub fn behind(s: &[u8], b: u8, count: usize) -> usize {
    let mut at = 0;
    for _ in 0..count {
        at = place_of(s, b, at) + 1;
    }
    at
}

// A word of a call, whose words are parted by points, counted from 0.
pub fn word(call: &[u8], k: usize) -> &[u8] {
    call.split(|b| *b == b'.').nth(k).unwrap_or(&[])
}

// A number that fits 32 bits.
pub fn number(s: &[u8]) -> u32 {
    (text::number_in(s) % 4294967296) as u32
}

fn nibble(b: u8) -> u8
    ensures { result < 16 }
{
    match b {
        b'0'..=b'9' => b - b'0',
        b'A'..=b'F' => b - b'A' + 10,
        _ => 0,
    }
}

// Bytes written in pairs of hexadecimal digits, as many as there is space for.
pub fn unhex(s: &[u8]) -> Filled<SPACE> {
    let mut bytes = Filled::new();
    let (pairs, _) = s.as_chunks::<2>();
    for [high, low] in pairs {
        bytes.push(nibble(*high) * 16 + nibble(*low));
    }
    bytes
}
