// The marks of the check: which nodes are named as a child, and which of them are named again.
// A word becomes a place by `as`, and a place a word: there is no `From` between `u32` and `usize`.
ghost use Rattle.std.specs.Prelude.{◌≡◌, ◌<◌, ◌≤◌, ℕ, List, replicate, MatchOption};
ghost use Rattle.table.specs.inside.Sets.{bump, AllOnce, NotOnce, FirstNotOnce};

use crate::sets::Set;
use std::marker::Model;

#[derive(Drop)]
pub(crate) struct Marks {
    once: Set,
    again: Set,
}

// Clauses see the two sets.
impl Model for Marks {
    ghost Value = { List ℕ × List ℕ };

    ghost view = { λ m. (m.once, m.again) };
}

impl Marks {
    pub(crate) fn new() -> Self
        ensures { result ≡ (replicate 32 0, replicate 32 0) }
    {
        Marks {
            once: Set::new(),
            again: Set::new(),
        }
    }

    // Marks k as a child: as named once for the first time, as named again for every later one.
    pub(crate) fn mark(&mut self, k: usize)
        requires { k < 1024 }
        ensures { self.new ≡ bump self.old k }
    {
        if self.once.holds(k) {
            self.again.put(k);
        } else {
            self.once.put(k);
        }
    }

    // The first node below `end` that is not named exactly once: word by word, and in the first word with such a node its lowest bit.
    pub(crate) fn first_not_once(&self, end: usize) -> Option<usize>
        requires { end ≤ 1024 }
        ensures { MatchOption result (AllOnce self.now end) (λ k. (k < end) × FirstNotOnce self.now k) }
    {
        for i in 0..32 {
            let wrong = not_once(self.once.word(i), self.again.word(i));
            if wrong != 0 {
                let k = 32 * i + wrong.trailing_zeros() as usize;
                return (k < end).then_some(k);
            }
        }
        None
    }
}

// The nodes of a word that are not named exactly once.
fn not_once(once: u32, again: u32) -> u32
    ensures { NotOnce once again result }
{
    !(once ^ again)
}
