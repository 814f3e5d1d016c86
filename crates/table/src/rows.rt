// The rows of 01's table: what each kind is as a child, and what its words p, q and r are.
// A word becomes a place by `as`, and a place a word: there is no `From` between `u32` and `usize`.
ghost use Rattle.std.specs.Prelude.{◌≡◌, ◌<◌};
ghost use Rattle.rules.specs.Refusal.{fine};
ghost use Rattle.rules.specs.Table.{nodes, row_at, node_fault};
ghost use Rattle.table.specs.inside.Rows.{is_child, row_in};

use Slot::{Any, Arithmetic, Boolean, Statement, Unused, Variable};

// What a word of a node is: a child of a class, not used, any number or a variable. A node is named where its own slot is asked for; a
// number that is no kind has a slot that is no child's. So classes and slots are one type. By tests: with `Child(Class)`, over an enum
// of classes, a check takes a third more instructions.
#[derive(Clone, Copy, PartialEq, Eq)]
pub(crate) enum Slot {
    Arithmetic,
    Boolean,
    Statement,
    Unused,
    Any,
    Variable,
}

impl Slot {
    pub(crate) fn is_child(self) -> bool
        ensures { result ≡ is_child self }
    {
        matches!(self, Arithmetic | Boolean | Statement)
    }
}

// A kind's own slot, and those of its words p, q and r.
#[derive(Clone, Copy)]
pub(crate) struct Row(pub Slot, pub Slot, pub Slot, pub Slot);

const NO_KIND: Row = Row(Unused, Unused, Unused, Unused);

const OPERATION: Row = Row(Arithmetic, Arithmetic, Arithmetic, Unused);

const TRUTH: Row = Row(Boolean, Unused, Unused, Unused);

const COMPARISON: Row = Row(Boolean, Arithmetic, Arithmetic, Unused);

// By kind. A static, so that it is laid down once and not at every look.
static ROWS: [Row; 37] = [
    NO_KIND,
    Row(Arithmetic, Any, Unused, Unused), // 1 number
    Row(Arithmetic, Variable, Unused, Unused), // 2 variable
    OPERATION, // 3 sum
    OPERATION, // 4 difference
    OPERATION, // 5 product
    OPERATION, // 6 quotient
    OPERATION, // 7 remainder
    Row(Arithmetic, Boolean, Arithmetic, Arithmetic), // 8 choose
    NO_KIND,
    NO_KIND,
    NO_KIND,
    NO_KIND,
    NO_KIND,
    NO_KIND,
    NO_KIND,
    TRUTH, // 16 true
    TRUTH, // 17 false
    COMPARISON, // 18 equal
    COMPARISON, // 19 at most
    COMPARISON, // 20 less
    Row(Boolean, Boolean, Unused, Unused), // 21 not
    Row(Boolean, Boolean, Boolean, Unused), // 22 and
    NO_KIND,
    NO_KIND,
    NO_KIND,
    NO_KIND,
    NO_KIND,
    NO_KIND,
    NO_KIND,
    NO_KIND,
    NO_KIND,
    Row(Statement, Unused, Unused, Unused), // 32 skip
    Row(Statement, Variable, Arithmetic, Unused), // 33 assign
    Row(Statement, Statement, Statement, Unused), // 34 sequence
    Row(Statement, Boolean, Statement, Statement), // 35 if
    Row(Statement, Boolean, Statement, Unused), // 36 while
];

// The row of node n.
pub(crate) fn row_at(t: &[u32], n: usize) -> Row
    requires { n < nodes t.now }
    ensures { row_in result ≡ row_at t.now n }
{
    let k = t[4 * n] as usize;
    if k < 37 { ROWS[k] } else { NO_KIND }
}

// The row of node n, whose kind is known.
pub(crate) fn known_row_at(t: &[u32], n: usize) -> Row
    requires { (n < nodes t.now) × (node_fault t.now n ≡ fine) }
    ensures { row_in result ≡ row_at t.now n }
{
    ROWS[t[4 * n] as usize]
}
