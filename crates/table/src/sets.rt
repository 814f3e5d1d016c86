// A set of nodes: bit k of 32 words of 32 bits for node k. That k is below 1,024, and a word's i below 32, is asked here: a type for either would be
// made for one call.
// A word becomes a place by `as`, and a place a word: there is no `From` between `u32` and `usize`.
ghost use Rattle.std.specs.Prelude.{◌≡◌, ◌<◌, ℕ, List, eqb, get_or, set, replicate};
ghost use Rattle.table.specs.inside.Sets.{held, put};

use std::marker::Model;

#[derive(Drop)]
pub(crate) struct Set {
    words: [u32; 32],
}

// Clauses see the words.
impl Model for Set {
    ghost Value = { List ℕ };

    ghost view = { λ s. s.words };
}

impl Set {
    pub(crate) fn new() -> Self
        ensures { result ≡ replicate 32 0 }
    {
        Set { words: [0; 32] }
    }

    pub(crate) fn holds(&self, k: usize) -> bool
        requires { k < 1024 }
        ensures { result ≡ eqb (held self.now k) 1 }
    {
        bits::has(self.words[k / 32], k as u32)
    }

    pub(crate) fn put(&mut self, k: usize)
        requires { k < 1024 }
        ensures { self.new ≡ put self.old k }
    {
        let i = k / 32;
        self.words[i] = bits::with(self.words[i], k as u32);
    }

    // The nodes of word i.
    pub(crate) fn word(&self, i: usize) -> u32
        requires { i < 32 }
        ensures { result ≡ get_or self.now i 0 }
    {
        self.words[i]
    }

    // Takes the nodes of word i out.
    pub(crate) fn take_word(&mut self, i: usize) -> u32
        requires { i < 32 }
        ensures taken { result ≡ get_or self.old i 0 }
        ensures left { self.new ≡ set self.old i 0 }
    {
        let taken = self.words[i];
        self.words[i] = 0;
        taken
    }
}
