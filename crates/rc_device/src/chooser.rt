//! Choosers: what decides which of several things happens next.

ghost use Rattle.std.specs.Prelude.{◌≡◌, ◌<◌, ◌%◌, drop, slice_index};
ghost use Rattle.rand_pcg.specs.Pcg.{pcg32};

use rand_pcg::Lcg64Xsh32;
use rand_pcg::rand_core::SeedableRng;
use rand_pcg::rand_core::utils::NextWord;
use std::marker::Model;
use std::vec::IntoIter;

/// What makes choices.
pub trait Chooser {
    /// One of the numbers below `n`, which is at least 1.
    fn pick(&mut self, n: u32) -> u32
        requires { 0 < n }
        ensures { result < n };
}

/// Choices of a random number generator, the same for the same seed.
#[derive(Drop)]
pub struct Seeded {
    words: Lcg64Xsh32,
}

// Clauses see the generator.
impl Model for Seeded {
    ghost use Rattle.rand_pcg.specs.Lcg.{Lcg};

    ghost Value = { Lcg };

    ghost view = { λ a. a.words };
}

impl Seeded {
    /// The choices of a seed: those of `Lcg64Xsh32::seed_from_u64`.
    pub fn new(seed: u64) -> Seeded
        ensures { let pcg = ⟦<Lcg64Xsh32 as SeedableRng>⟧ in
            result ≡ pcg.of_seed (pcg.seed_of_u64 seed) }
    {
        Seeded {
            words: Lcg64Xsh32::seed_from_u64(seed),
        }
    }
}

impl Chooser for Seeded {
    /// The generator's next word, taken modulo `n`.
    fn pick(&mut self, n: u32) -> u32
        requires { 0 < n }
        ensures value { result ≡ (pcg32 self.old).0 % n }
        ensures generator { self.new ≡ (pcg32 self.old).1 }
        ensures below { result < n }
    {
        self.words.next_word() % n
    }
}

/// Choices from a list.
#[derive(Drop)]
pub struct Listed {
    numbers: IntoIter<u32>,
}

// Clauses see the numbers that are left.
impl Model for Listed {
    ghost use Rattle.std.specs.Prelude.{ℕ, List};
    ghost use Rattle.std.specs.Vec.Iter.{into_iter_items};

    ghost Value = { List ℕ };

    ghost view = { λ a. into_iter_items a.numbers };
}

impl Listed {
    /// The choices of these numbers, from the first on.
    pub fn new(numbers: Vec<u32>) -> Listed
        ensures { result ≡ numbers.items }
    {
        Listed {
            numbers: numbers.into_iter(),
        }
    }
}

impl Chooser for Listed {
    /// The list's next number, taken modulo `n`; 0 after the list's end.
    fn pick(&mut self, n: u32) -> u32
        requires { 0 < n }
        ensures value { result ≡ slice_index self.old 0 % n }
        ensures rest { self.new ≡ drop 1 self.old }
        ensures below { result < n }
    {
        match self.numbers.next() {
            Some(number) => number % n,
            None => 0,
        }
    }
}
