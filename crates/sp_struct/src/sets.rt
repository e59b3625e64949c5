ghost use Rattle.std.specs.Prelude.{◌≡◌, ◌<◌, ◌/◌, ◌||◌, ℕ, List, false, nat_eq, IfOk, length};
ghost use Rattle.sp_struct.specs.code.Bits.{has};

use std::alloc::{AllocError, Global};
use std::marker::Model;

/// A set of numbers below a bound, 64 to a word: number 70 is bit 6 of word 1. Contracts see its words.
#[derive(Debug, Drop)]
pub struct BitSet {
    words: Vec<u64>,
}

impl Model for BitSet {
    ghost Value = { List ℕ };

    ghost view = { λ set. set.words.items };
}

impl BitSet {
    /// A set of none, for numbers below `64 * words`.
    pub fn new(alloc: Global, words: usize) -> Result<BitSet, AllocError>
        ensures size { IfOk result (λ set. length set ≡ words) }
        ensures none { IfOk result (λ set. (i : ℕ) → has set i ≡ false) }
    {
        Ok(BitSet {
            words: vec![in alloc; 0u64; words]?,
        })
    }

    /// A copy.
    pub fn copy(&self) -> Result<BitSet, AllocError>
        ensures { IfOk result (λ set. set ≡ self.now) }
    {
        Ok(BitSet {
            words: self.words.clone()?,
        })
    }

    /// Whether a number is in it.
    pub fn has(&self, number: usize) -> bool
        ensures { result ≡ has self.now number }
    {
        match self.words.get(number / 64) {
            Some(word) => (*word >> (number % 64)) & 1 == 1,
            None => false,
        }
    }

    /// Puts a number into it.
    pub fn put(&mut self, number: usize)
        requires { number / 64 < length self.old }
        ensures size { length self.new ≡ length self.old }
        ensures has { (i : ℕ) → has self.new i ≡ (has self.old i || nat_eq i number) }
    {
        self.words[number / 64] |= 1u64 << (number % 64);
    }

    /// Puts the numbers of another one into it.
    pub fn join(&mut self, other: &BitSet)
        requires { length self.old ≡ length other.now }
        ensures size { length self.new ≡ length self.old }
        ensures has { (i : ℕ) → has self.new i ≡ (has self.old i || has other.now i) }
    {
        'words: for place in 0..self.words.len() {
            self.words[place] |= other.words[place];
        }
    }
}
