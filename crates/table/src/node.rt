// What refuses a node: 2 to 6.
// A word becomes a place by `as`, and a place a word: there is no `From` between `u32` and `usize`.
ghost use Rattle.std.specs.Prelude.{◌≡◌, ◌<◌, min, IsTrue};
ghost use Rattle.rules.specs.Table.{word_fault, node_fault};
ghost use Rattle.table.specs.inside.Rows.{slot_in, is_child};
ghost use Rattle.table.specs.inside.Steps.{Reached, Placed, Walked, number_in};

use crate::marks::Marks;
use crate::rows::{self, Row, Slot};
use rules::Reason;

// A node of a table of at most 1,024 nodes, where no node below it has a fault.
#[derive(Clone, Copy)]
pub(crate) struct Node<'a> {
    pub table: &'a [u32],
    pub number: usize,
    ghost reached: { Reached table.now number },
}

impl<'a> Node<'a> {
    // Why the word w does not name a child with this slot, if it does not: 5 or 6.
    fn child_fault(&self, slot: Slot, w: u32) -> Option<Reason>
        requires { IsTrue (is_child slot) }
        ensures { number_in result ≡ word_fault self.now.table.now self.now.number (slot_in slot) w }
    {
        let k = w as usize;
        if self.number <= k {
            return Some(Reason::ChildNotBelow);
        }
        let Row(own, ..) = rows::known_row_at(self.table, k);
        (own != slot).then_some(Reason::ChildClass)
    }

    // Why the word w is not as this slot asks, if it is not: 3, 4, 5 or 6. Most words that are no children are 0, which is right in every
    // such slot.
    fn word_fault(&self, slot: Slot, w: u32) -> Option<Reason>
        ensures { number_in result ≡ word_fault self.now.table.now self.now.number (slot_in slot) w }
    {
        if slot.is_child() {
            return self.child_fault(slot, w);
        }
        if w == 0 {
            return None;
        }
        match slot {
            Slot::Unused => Some(Reason::UnusedWord),
            Slot::Variable => (32 <= w).then_some(Reason::NoVariable),
            _ => None,
        }
    }

    // Whether the word w is as its slot asks; then the child that it names is marked.
    fn place_word(&self, slot: Slot, w: u32, marks: &mut Marks) -> bool
        ensures { Placed self.now.table.now self.now.number (slot_in slot) w marks.old result marks.new }
    {
        if self.word_fault(slot, w).is_some() {
            return false;
        }
        if slot.is_child() {
            marks.mark(w as usize);
        }
        true
    }

    // Whether the node has no fault; then its children are marked. It goes no further than the first word that is wrong: which fault it is
    // when all three are looked at, `fault` tells.
    pub(crate) fn place(&self, marks: &mut Marks) -> bool
        ensures { Walked self.now.table.now self.now.number marks.old result marks.new }
    {
        let Row(own, p, q, r) = rows::row_at(self.table, self.number);
        if !own.is_child() {
            return false;
        }
        let at = 4 * self.number;
        self.place_word(p, self.table[at + 1], marks)
            && self.place_word(q, self.table[at + 2], marks)
            && self.place_word(r, self.table[at + 3], marks)
    }

    // "the lowest number at a node first": 2 to 6, if the node has a fault.
    pub(crate) fn fault(&self) -> Option<Reason>
        ensures { number_in result ≡ node_fault self.now.table.now self.now.number }
    {
        let Row(own, p, q, r) = rows::row_at(self.table, self.number);
        if !own.is_child() {
            return Some(Reason::UnknownKind);
        }
        let at = 4 * self.number;
        let p = self.word_fault(p, self.table[at + 1]);
        let q = self.word_fault(q, self.table[at + 2]);
        let r = self.word_fault(r, self.table[at + 3]);
        lower(p, lower(q, r))
    }
}

// The reason with the lower number. A match, and not `min`: reasons have no order of their own, only their numbers have.
fn lower(a: Option<Reason>, b: Option<Reason>) -> Option<Reason>
    ensures { number_in result ≡ min (number_in a) (number_in b) }
{
    match (a, b) {
        (Some(r), Some(s)) => { if r.number() < s.number() { a } else { b } }
        (None, _) => b,
        (_, None) => a,
    }
}
