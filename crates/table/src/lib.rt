// The table check: refusals 1 to 9 of a table of words.
// A word becomes a place by `as`, and a place a word: there is no `From` between `u32` and `usize`.
#![tactic(auto)]

mod levels;
mod marks;
mod node;
mod rows;
mod sets;

ghost use Rattle.std.specs.Prelude.{◌≡◌, ◌&&◌, ◌%◌, ◌<◌, ◌≤◌, eqb, ltb, leb};
ghost use Rattle.rules.specs.Table.{nodes};
ghost use Rattle.table.specs.Checking.{answer, checking};
ghost use Rattle.table.specs.inside.Steps.{Swept, tree_refusal, Marked};

use levels::Tree;
use marks::Marks;
use node::Node;
use rows::{Row, Slot};
use rules::{Reason, Refusal};

// "Numbers 2 to 6 go node by node from 0": the first node with a fault. Where there is none, every child is marked.
fn walk(t: &[u32], marks: &mut Marks) -> Result<(), Refusal>
    requires { nodes t.now ≤ 1024 }
    ensures { Swept t.now marks.old result marks.new }
{
    for n in 0..t.len() / 4 {
        let node = Node {
            table: t,
            number: n,
        };
        if !node.place(marks) {
            let reason = node.fault().unwrap();
            return Err(reason.at(n as u32));
        }
    }
    Ok(())
}

// Refusals 7 to 9, where no node is refused and every child is marked.
fn check_tree(t: &[u32], marks: &Marks) -> Result<(), Refusal>
    requires { Marked t.now marks.now }
    ensures { result ≡ answer (tree_refusal t.now) }
{
    let root = t.len() / 4 - 1;
    let Row(own, ..) = rows::known_row_at(t, root);
    if own != Slot::Statement {
        return Err(Reason::RootClass.at(root as u32));
    }
    if let Some(k) = marks.first_not_once(root) {
        return Err(Reason::NotOnce.at(k as u32));
    }
    // A node is at most one deeper than its number.
    let low = root < 256;
    if low {
        return Ok(());
    }
    let tree = Tree { table: t };
    if tree.is_shallow() {
        Ok(())
    } else {
        Err(Reason::Depth.at(0))
    }
}

// "table words not a multiple of 4, none, or over 4,096" is refused.
fn whole(words: usize) -> bool
    ensures { result ≡ (eqb (words % 4) 0 && ltb 0 words && leb words 4096) }
{
    words % 4 == 0 && 0 < words && words <= 4096
}

pub fn check(table: &[u32]) -> Result<(), Refusal>
    ensures { result ≡ checking table.now }
{
    if !whole(table.len()) {
        return Err(Reason::TableLength.at(0));
    }
    let mut marks = Marks::new();
    walk(table, &mut marks)?;
    check_tree(table, &marks)
}
