//! Blocks of 512 bits.
ghost use Rattle.std.specs.Prelude.{◌≡◌, ◌↔◌, ◌⊎◌, ◌<◌, ◌≤◌, ◌≢◌, ℕ, false, true, length, IsTrue};
ghost use Rattle.std.specs.Int.{bit_at};
ghost use Rattle.reduce_source.specs.BitsOf.{HasBit};

/// How many words a block has.
const WORDS: usize = 8;

/// A block of 512 bits.
#[derive(Clone, Copy)]
pub struct Block {
    words: [u64; WORDS],
    ghost size: { length words ≡ 8 },
}

impl Block {
    /// A block without bits.
    pub fn empty() -> Block
        ensures { (j : ℕ) → ¬ HasBit result.words j }
    {
        Block { words: [0; WORDS] }
    }

    /// Whether it has a bit.
    pub fn has_bit(&self, bit: usize) -> bool
        requires { bit < 512 }
        ensures { IsTrue result ↔ HasBit self.now.words bit }
    {
        (self.words[bit / 64] >> (bit % 64)) & 1 == 1
    }

    /// Whether each of its bits is one of another.
    pub fn is_within(&self, large: &Block) -> bool
        ensures yes { result ≡ true → (j : ℕ) → HasBit self.now.words j → HasBit large.now.words j }
        ensures no { result ≡ false
            → (j : ℕ) × (j < 512) × HasBit self.now.words j × ¬ HasBit large.now.words j }
    {
        for place in 0..WORDS {
            let covered = covers(large.words[place], self.words[place]);
            if !covered {
                return false;
            }
        }
        true
    }

    /// Its bits and those of another.
    pub fn union(&self, other: &Block) -> Block
        ensures { (j : ℕ) → HasBit result.words j
            ↔ (HasBit self.now.words j ⊎ HasBit other.now.words j) }
    {
        let mut words = self.words;
        for place in 0..WORDS {
            words[place] |= other.words[place];
        }
        Block { words }
    }

    /// Its bits and one more.
    pub fn with_bit(&self, bit: usize) -> Block
        requires { bit < 512 }
        ensures { (j : ℕ) → HasBit result.words j ↔ (HasBit self.now.words j ⊎ (j ≡ bit)) }
    {
        let mut words = self.words;
        words[bit / 64] |= 1u64 << (bit % 64);
        Block { words }
    }
}

/// Whether each bit of a word is one of another.
fn covers(large: u64, small: u64) -> bool
    ensures yes { result ≡ true → (j : ℕ) → j < 64 → bit_at small j ≡ 1 → bit_at large j ≡ 1 }
    ensures no { result ≡ false → (j : ℕ) × (j < 64) × (bit_at small j ≡ 1) × (bit_at large j ≢ 1) }
{
    small & !large == 0
}
