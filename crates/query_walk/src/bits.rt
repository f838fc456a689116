//! Places of which each is set or not, a bit for each.
ghost use Rattle.std.specs.Prelude.{◌≡◌, ◌+◌, ◌*◌, ◌^◌, ◌<◌, ◌≤◌, ◌↔◌, ◌⊎◌, ℕ, length, IfOk, IfSome, IfNone, IsTrue};
ghost use Rattle.query_walk.specs.Bits.{IsFirstSet, IsSet};

use flow_base::NoMemory;
use std::alloc::Global;
use std::marker::Model;

/// Places that are set or not, in words of 64 bits.
#[derive(Drop)]
pub struct Bits {
    words: Vec<u64>,
}

impl Model for Bits {
    ghost use Rattle.std.specs.Prelude.{List, ℕ, ◌≤◌, ◌^◌, length};

    ghost Value = { List ℕ };

    ghost view = { λ b. b.words.items };

    ghost invariant = { λ b. length b.words.items ≤ 2 ^ 58 };
}

impl Bits {
    /// The places up to a last one, of which none is set.
    pub fn new(alloc: Global, last: u64) -> Result<Bits, NoMemory>
        ensures room { IfOk result (λ bits. last < 64 * length bits) }
        ensures none { IfOk result (λ bits. (p : ℕ) → ¬ IsSet bits p) }
    {
        let words = vec![in alloc; 0u64; (last / 64) as usize + 1]?;
        Ok(Bits { words })
    }

    /// Sets a place.
    pub fn set(&mut self, place: u64)
        requires { place < 64 * length self.old }
        ensures set { (p : ℕ) → IsSet self.new p ↔ (IsSet self.old p ⊎ (p ≡ place)) }
        ensures len { length self.new ≡ length self.old }
    {
        let word = (place / 64) as usize;
        self.words[word] |= 1u64 << (place % 64);
    }

    /// Whether a place is set.
    pub fn has(&self, place: u64) -> bool
        requires { place < 64 * length self.now }
        ensures { IsTrue result ↔ IsSet self.now place }
    {
        let word = self.words[(place / 64) as usize];
        (word >> (place % 64)) % 2 == 1
    }

    /// The first place that is set from one on.
    pub fn next(&self, from: u64) -> Option<u64>
        ensures some { IfSome result (IsFirstSet self.now from) }
        ensures none { IfNone result ((p : ℕ) → from ≤ p → ¬ IsSet self.now p) }
    {
        first_from(&self.words, from)
    }
}

/// The first place that is set in words from a place on.
fn first_from(words: &[u64], from: u64) -> Option<u64>
    requires { length words.now ≤ 2 ^ 58 }
    ensures some { IfSome result (IsFirstSet words.now from) }
    ensures none { IfNone result ((p : ℕ) → from ≤ p → ¬ IsSet words.now p) }
{
    let word = (from / 64) as usize;
    if word >= words.len() {
        return None;
    }
    let rest = words[word] >> (from % 64);
    if rest != 0 {
        return Some(from + rest.trailing_zeros() as u64);
    }
    first_after(words, word)
}

/// The first place that is set in the words after one.
fn first_after(words: &[u64], word: usize) -> Option<u64>
    requires word { word < length words.now }
    requires few { length words.now ≤ 2 ^ 58 }
    ensures some { IfSome result (IsFirstSet words.now (64 * word + 64)) }
    ensures none { IfNone result ((p : ℕ) → 64 * word + 64 ≤ p → ¬ IsSet words.now p) }
{
    for index in word + 1..words.len() {
        let bits = words[index];
        if bits != 0 {
            return Some(64 * index as u64 + bits.trailing_zeros() as u64);
        }
    }
    None
}
