// The instruction that bears a label.
// A word becomes a place by `as`: there is no `From` between `u32` and `usize`.
ghost use Rattle.std.specs.Prelude.{◌≡◌, ◌+◌, ◌<◌, ◌≤◌};
ghost use Rattle.rules.specs.CodeWords.{part as part_of, instructions, Rising};
ghost use Rattle.code.specs.inside.Running.{Place};

use lent::part;
use rules::WIDTH;

// A label, and the position of the instruction that bears it, if one does.
#[derive(Clone, Copy)]
pub(crate) struct Spot {
    pub(crate) label: u32,
    pub(crate) place: Option<usize>,
}

// The words of code whose labels rise.
#[derive(Clone, Copy)]
pub(crate) struct Code<'a> {
    pub(crate) words: &'a [u32],
    ghost rising: { Rising words.now },
}

impl<'a> Code<'a> {
    // By halving, since the labels rise. By hand: the library's `binary_search_by_key` goes on where it has hit, and measures 5 to 10 % more
    // instructions on code with gaps (as plain Rust).
    fn halve(&self, label: u32) -> Option<usize>
        ensures { Place self.now.words.now label result }
    {
        let mut low = 0;
        let mut high = self.words.len() / WIDTH;
        while low < high {
            let middle = low + (high - low) / 2;
            let here = part(self.words, middle, 0);
            if here == label {
                return Some(middle);
            }
            if here < label {
                low = middle + 1;
            } else {
                high = middle;
            }
        }
        None
    }

    // Compiled code has no gaps, so the first look finds its instruction.
    pub(crate) fn find(&self, label: u32) -> Option<usize>
        ensures { Place self.now.words.now label result }
    {
        let count = self.words.len() / WIDTH;
        if count == 0 {
            return None;
        }
        let first = part(self.words, 0, 0);
        if label < first {
            return None;
        }
        let k = (label - first) as usize;
        if k < count && part(self.words, k, 0) == label {
            return Some(k);
        }
        self.halve(label)
    }

    pub(crate) fn jump(&self, label: u32) -> Spot
        ensures { (result.label ≡ label) × Place self.now.words.now label result.place }
    {
        let place = self.find(label);
        Spot { label, place }
    }

    // The label after that of instruction k. If an instruction bears it, it is the next.
    pub(crate) fn after(&self, k: usize) -> Spot
        requires { (k < instructions self.now.words.now) × (part_of self.now.words.now k 0 ≤ 65534) }
        ensures { (result.label ≡ part_of self.now.words.now k 0 + 1) × Place self.now.words.now (part_of self.now.words.now k 0 + 1) result.place }
    {
        let label = part(self.words, k, 0) + 1;
        let count = self.words.len() / WIDTH;
        let next = k + 1;
        if next < count {
            let bears = part(self.words, next, 0) == label;
            if bears {
                return Spot {
                    label,
                    place: Some(next),
                };
            }
        }
        Spot { label, place: None }
    }
}
