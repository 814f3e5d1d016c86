// The evaluators: the value or the truth of an expression node of an accepted table, on a store. They are for the runs alone, and ask
// (`requires`) what a run has checked: a caller has to prove it.
// They take the table by a reference to its slice: a call then passes one pointer on and copies no pair of pointer and length. Table and store are no
// struct: the source run has its store by `&mut`, and would make one for each call. A node is read word by word: one that is decoded into an enum
// (`Number(v)`, `Binary(o, p, q)` ..) and matched measures 50 to 80 % more instructions (as plain Rust).
#![tactic(auto)]

ghost use Rattle.std.specs.Prelude.{◌≡◌, ◌≤◌, IfSome};
ghost use Rattle.rules.specs.Expression.{apply as applied, holds as held};
ghost use Rattle.rules.specs.Table.{meaning, arithmetic, boolean as booleans};
ghost use Rattle.evaluate.specs.Ready.{Ready};
ghost use Rattle.evaluate.specs.inside.Operands.{operator_of, relation_of, Leaf, Compound, Operands, Worth};

use lent::kinds::{
    AT_MOST, CHOOSE, EQUAL, FALSEHOOD, LESS, MINUS, NEGATION, NUMBER, OVER, PLUS, REST, TIMES,
    TRUTH, VARIABLE,
};
use lent::{place, word};

// The operation of a kind from `PLUS` to `REST`. By tests, which measure faster than a `match`: that becomes a jump through a table.
fn apply(k: u32, a: i32, b: i32) -> i32
    requires { (3 ≤ k) × (k ≤ 7) }
    ensures { result ≡ applied (operator_of k) a b }
{
    if k <= MINUS {
        if k == PLUS {
            return value::add(a, b);
        }
        return value::sub(a, b);
    }
    if k == TIMES {
        return value::mul(a, b);
    }
    if k == OVER {
        return value::div(a, b);
    }
    value::rem(a, b)
}

// The comparison of a kind from `EQUAL` to `LESS`.
fn compare(k: u32, a: i32, b: i32) -> bool
    requires { (18 ≤ k) × (k ≤ 20) }
    ensures { result ≡ held (relation_of k) a b }
{
    match k {
        EQUAL => a == b,
        AT_MOST => a <= b,
        _ => a < b,
    }
}

// The value of the number or variable n, of kind k.
fn leaf(t: &&[u32], s: &[i32; 32], n: usize, k: u32) -> i32
    requires { Leaf t.now.now n k }
    ensures { result ≡ (meaning t.now.now).arith n s.now }
{
    let is_number = k == NUMBER;
    if is_number {
        return value::of_word(word(t, n, 1));
    }
    let x = place(t, n, 1);
    s[x]
}

// The value of the arithmetic node n, of kind k, which is no leaf.
#[cycle(arith_boolean_operand)]
fn arith(t: &&[u32], s: &[i32; 32], n: usize, k: u32) -> i32
    requires { Compound t.now.now n k }
    ensures { result ≡ (meaning t.now.now).arith n s.now }
{
    if k == CHOOSE {
        if boolean(t, s, place(t, n, 1)) {
            return operand(t, s, place(t, n, 2));
        }
        return operand(t, s, place(t, n, 3));
    }
    let a = operand(t, s, place(t, n, 1));
    let b = operand(t, s, place(t, n, 2));
    apply(k, a, b)
}

// The value of any arithmetic node n. Most operands are numbers and variables, which are read without a call of `arith`.
#[cycle(arith_boolean_operand)]
fn operand(t: &&[u32], s: &[i32; 32], n: usize) -> i32
    requires { Ready t.now.now n arithmetic }
    ensures { result ≡ (meaning t.now.now).arith n s.now }
{
    let k = word(t, n, 0);
    if k <= VARIABLE {
        leaf(t, s, n, k)
    } else {
        arith(t, s, n, k)
    }
}

// The truth of the boolean node n. Most are comparisons, so they come first.
#[cycle(arith_boolean_operand)]
pub fn boolean(t: &&[u32], s: &[i32; 32], n: usize) -> bool
    requires { Ready t.now.now n booleans }
    ensures { result ≡ (meaning t.now.now).holds n s.now }
{
    let k = word(t, n, 0);
    if (EQUAL <= k) & (k <= LESS) {
        let a = operand(t, s, place(t, n, 1));
        let b = operand(t, s, place(t, n, 2));
        return compare(k, a, b);
    }
    match k {
        TRUTH => true,
        FALSEHOOD => false,
        NEGATION => !boolean(t, s, place(t, n, 1)),
        _ => {
            let a = boolean(t, s, place(t, n, 1));
            let b = boolean(t, s, place(t, n, 2));
            a & b
        }
    }
}

// What the two operands of node n are worth, where both are leaves. Most operations and comparisons are of two leaves, and need no call of an evaluator.
fn leaves(t: &&[u32], s: &[i32; 32], n: usize) -> Option<(i32, i32)>
    requires { Operands t.now.now n }
    ensures { IfSome result (λ two. Worth t.now.now n s.now two.0 two.1) }
{
    let p = place(t, n, 1);
    let q = place(t, n, 2);
    let first = word(t, p, 0);
    let second = word(t, q, 0);
    let both = (first <= VARIABLE) & (second <= VARIABLE);
    if both {
        let a = leaf(t, s, p, first);
        let b = leaf(t, s, q, second);
        return Some((a, b));
    }
    None
}

// The same as `operand`, for a whole expression. It doesn't end in `operand`: that would be a call of its own, and measures up to 25 % more instructions.
pub fn value_of(t: &&[u32], s: &[i32; 32], n: usize) -> i32
    requires { Ready t.now.now n arithmetic }
    ensures { result ≡ (meaning t.now.now).arith n s.now }
{
    let k = word(t, n, 0);
    if k <= VARIABLE {
        return leaf(t, s, n, k);
    }
    if k != CHOOSE {
        if let Some((x, y)) = leaves(t, s, n) {
            return apply(k, x, y);
        }
    }
    arith(t, s, n, k)
}

// The same as `boolean`, for a whole test.
pub fn truth_of(t: &&[u32], s: &[i32; 32], n: usize) -> bool
    requires { Ready t.now.now n booleans }
    ensures { result ≡ (meaning t.now.now).holds n s.now }
{
    let k = word(t, n, 0);
    if (EQUAL <= k) & (k <= LESS) {
        if let Some((x, y)) = leaves(t, s, n) {
            return compare(k, x, y);
        }
    }
    boolean(t, s, n)
}
