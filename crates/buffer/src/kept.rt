// The bytes that a buffer has kept from its start on.
ghost use Rattle.std.specs.Prelude.{◌≡◌, ℕ, ◌≤◌, List, [], ◌∷◌, length, take};
ghost use Rattle.buffer.specs.Text.{added};

use crate::{keep, keep_all};
use std::marker::Model;

// At most `N` bytes: what has no room is dropped.
#[derive(Drop)]
pub struct Text<const N: usize> {
    bytes: [u8; N],
    len: usize,
}

// Clauses see the bytes that are kept.
impl<const N: usize> Model for Text<N> {
    ghost Value = { List ℕ };

    ghost view = { λ t. take t.len t.bytes };

    ghost invariant = { λ t. t.len ≤ N };
}

impl<const N: usize> Text<N> {
    pub fn new() -> Self
        ensures { result ≡ [] }
    {
        Text {
            bytes: [0; N],
            len: 0,
        }
    }

    pub fn clear(&mut self)
        ensures { self.new ≡ [] }
    {
        self.len = 0;
    }

    pub fn push(&mut self, b: u8)
        ensures { self.new ≡ added N self.old (b ∷ []) }
    {
        self.len = keep(&mut self.bytes, self.len, b);
    }

    pub fn push_all(&mut self, bytes: &[u8])
        ensures keeps { self.new ≡ added N self.old bytes.now }
        ensures within { length self.new ≤ N }
    {
        self.len = keep_all(&mut self.bytes, self.len, bytes);
    }

    pub fn as_slice(&self) -> &[u8]
        ensures { result.now ≡ self.now }
    {
        &self.bytes[..self.len]
    }
}
