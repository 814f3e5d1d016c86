// The check of jump code over a table, and all that is checked before such code is run.
// A word becomes a place by `as`, and a place a word: there is no `From` between `u32` and `usize`.
#![tactic(auto)]

ghost use Rattle.std.specs.Prelude.{◌≡◌, not, ◌&&◌, ◌<◌, eqb, ltb, leb};
ghost use Rattle.rules.specs.Refusal.{fine, refuse};
ghost use Rattle.rules.specs.Table.{field, nodes};
ghost use Rattle.rules.specs.CodeWords.{instructions, fields_fit, rises as labels_rise, code_fault, code_refusal};
ghost use Rattle.table.specs.Checking.{answer};
ghost use Rattle.instructions.specs.Admission.{admission};

use lent::part;
use rules::{Reason, Refusal, WIDTH};

// The operations of instructions, as their words have them. By their numbers: the check here and the run of code make no instruction, they meet one
// in a word, and an enum would be made from that word only to be matched once. The compiler, which writes instructions, has an enum.
pub const ASSIGN: u32 = 1;

pub const GOTO: u32 = 2;

pub const IFNOT: u32 = 3;

// Whether n is a node whose kind lies from low to high.
fn is_node(t: &[u32], n: usize, low: u32, high: u32) -> bool
    ensures { result ≡ (ltb n (nodes t.now) && (leb low (field t.now n 0) && leb (field t.now n 0) high)) }
{
    n < t.len() / 4 && (low..=high).contains(&t[4 * n])
}

// Whether the fields of an instruction fit its operation.
fn fields_fit(t: &[u32], o: u32, x: u32, y: u32) -> bool
    ensures { result ≡ fields_fit t.now o x y }
{
    match o {
        ASSIGN => (x < 32) & is_node(t, y as usize, 1, 8),
        GOTO => (x == 0) & (y <= 65535),
        IFNOT => is_node(t, x as usize, 16, 22) & (y <= 65535),
        _ => false,
    }
}

// Whether the label of instruction k is above that of the one before it. That there is an instruction k is the loop's to show: a type for such a
// number would be made at each turn, only to be read here and in `obeys`.
fn rises(c: &[u32], k: usize) -> bool
    requires { k < instructions c.now }
    ensures { result ≡ labels_rise c.now k }
{
    if k == 0 {
        return true;
    }
    part(c, k - 1, 0) < part(c, k, 0)
}

// Whether instruction k is within the rules.
fn obeys(t: &[u32], c: &[u32], k: usize) -> bool
    requires { k < instructions c.now }
    ensures { result ≡ eqb (code_fault t.now c.now k) fine }
{
    let fit = fields_fit(t, part(c, k, 1), part(c, k, 2), part(c, k, 3));
    (part(c, k, 0) <= 65534) & fit & rises(c, k)
}

// "word count (place 0), then any field, rising labels, node classes": the first instruction against the rules.
pub fn check_code(t: &[u32], c: &[u32]) -> Result<(), Refusal>
    ensures { result ≡ answer (code_refusal t.now c.now) }
{
    let words = c.len();
    let whole = (words % WIDTH == 0) & (words <= WIDTH * 1024);
    if !whole {
        return Err(Reason::Code.at(0));
    }
    let count = words / WIDTH;
    for k in 0..count {
        if !obeys(t, c, k) {
            return Err(Reason::Code.at(k as u32));
        }
    }
    Ok(())
}

// Refusals 1 to 11 and 13, in this order. A bool, since the caller knows what has to fit: `fits` tells whether what is lent of stores has the length that the call asks for.
#[tactic(auto, using(table::proofs::Answer::accepted, crate::proofs::Order::refused_start))]
pub fn admit(table: &[u32], code: &[u32], start: u32, fits: bool) -> Result<(), Refusal>
    ensures { result ≡ answer (admission table.now code.now start (refuse (not fits) 10 0)) }
{
    table::check(table)?;
    if !fits {
        return Err(Reason::StoreLength.at(0));
    }
    if 65535 < start {
        return Err(Reason::Label.at(0));
    }
    check_code(table, code)
}
