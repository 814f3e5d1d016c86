// The depth of the tree, level by level from the root: a level is a set of nodes, with a word that tells which of the set's words are
// not empty. Children lie below their parent, so the next level goes into the words that are passed, and no second set is needed. Each
// node is looked at once. The loops over the bits of a word count no index: each takes the lowest bit that is left.
// A word becomes a place by `as`, and a place a word: there is no `From` between `u32` and `usize`.
ghost use Rattle.std.specs.Prelude.{◌≡◌, ℕ, List, ◌-◌, ◌<◌, ◌≤◌, leb, replicate};
ghost use Rattle.rules.specs.Table.{nodes, root, Class, child, child_in, children, depth_at};
ghost use Rattle.table.specs.inside.Rows.{slot_in};
ghost use Rattle.table.specs.inside.Sets.{add, adds, under, Inside, Level};
ghost use Rattle.table.specs.inside.Steps.{Sound};

use crate::rows::{self, Row, Slot};
use crate::sets::Set;
use std::marker::Model;

// Nodes of a table: a set, and a word that tells which of its words are not empty.
#[derive(Drop)]
struct Nodes {
    set: Set,
    used: u32,
}

// Clauses see the words of the set, and the word that tells which of them are in use.
impl Model for Nodes {
    ghost Value = { List ℕ × ℕ };

    ghost view = { λ m. (m.set, m.used) };
}

impl Nodes {
    fn new() -> Self
        ensures { result ≡ (replicate 32 0, 0) }
    {
        Nodes {
            set: Set::new(),
            used: 0,
        }
    }

    fn add(&mut self, k: usize)
        requires { k < 1024 }
        ensures { self.new ≡ add self.old k }
    {
        self.set.put(k);
        self.used = bits::with(self.used, (k / 32) as u32);
    }

    // Adds the child that the word w names in this slot, if it names one.
    fn add_child(&mut self, slot: Slot, w: u32)
        requires { (c : Class) → slot_in slot ≡ child c → w < 1024 }
        ensures { self.new ≡ adds self.old (child_in (slot_in slot) w) }
    {
        if slot.is_child() {
            self.add(w as usize);
        }
    }
}

// A table of at most 1,024 nodes, none of which has a fault.
#[derive(Clone, Copy)]
pub(crate) struct Tree<'a> {
    pub table: &'a [u32],
    ghost few: { nodes table.now ≤ 1024 },
    ghost sound: { Sound table.now },
}

impl<'a> Tree<'a> {
    fn add_children(&self, n: usize, level: &mut Nodes)
        requires { n < nodes self.now.table.now }
        ensures { level.new ≡ adds level.old (children self.now.table.now n) }
    {
        let Row(_, p, q, r) = rows::known_row_at(self.table, n);
        let at = 4 * n;
        level.add_child(p, self.table[at + 1]);
        level.add_child(q, self.table[at + 2]);
        level.add_child(r, self.table[at + 3]);
    }

    // Adds the children of some nodes to the level: of those that are the bits of `taken` in a set's word i.
    fn add_all(&self, i: usize, taken: u32, level: &mut Nodes)
        requires { (i < 32) × Inside self.now.table.now i taken }
        ensures { level.new ≡ adds level.old (under self.now.table.now i taken) }
    {
        let mut left = taken;
        while left != 0 {
            let j = left.trailing_zeros() as usize;
            left &= left - 1;
            self.add_children(32 * i + j, level);
        }
    }

    // Puts the next level in the place of this one.
    fn pass(&self, level: &mut Nodes)
        requires { (h : ℕ) × Level self.now.table.now level.old h }
        ensures { (h : ℕ) → Level self.now.table.now level.old h → Level self.now.table.now level.new (h - 1) }
    {
        let mut left = level.used;
        level.used = 0;
        while left != 0 {
            let i = left.trailing_zeros() as usize;
            left &= left - 1;
            let taken = level.set.take_word(i);
            self.add_all(i, taken, level);
        }
    }

    // Whether the root is at most 256 deep: no node is left when 256 levels are passed.
    pub(crate) fn is_shallow(&self) -> bool
        requires { 0 < nodes self.now.table.now }
        ensures { result ≡ leb (depth_at self.now.table.now (root self.now.table.now)) 256 }
    {
        let mut level = Nodes::new();
        level.add(self.table.len() / 4 - 1);
        for _ in 0..256u32 {
            if level.used == 0 {
                return true;
            }
            self.pass(&mut level);
        }
        level.used == 0
    }
}
