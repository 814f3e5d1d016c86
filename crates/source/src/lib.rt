// The source run: the statements of an accepted table, on a store, within fuel.
// What is left of the fuel goes into a word by `as`: `try_from` would ask for what is proved.
#![tactic(auto)]

ghost use Rattle.std.specs.Prelude.{◌≡◌, ◌<◌};
ghost use Rattle.rules.specs.Table.{Kind, statement};
ghost use Rattle.rules.specs.Answer.{ended};
ghost use Rattle.evaluate.specs.Ready.{Ready};
ghost use Rattle.source.specs.inside.Ran.{Ran, Of};
ghost use Rattle.source.specs.SourceRun.{source_run};

use evaluate::{boolean, value_of};
use lent::kinds::{ASSIGN, IF, SEQUENCE, SKIP};
use lent::{place, put_back, taken, word};
use rules::{End, Reason, Refusal};

// Credit is one more than the fuel that is left. None is left where the fuel was spent before the end.
// Both pass in one register so: an `Option` of the fuel, with `?`, measures 5 to 19 % more instructions (as plain Rust), and an `Option` of a
// `NonZeroU64` has two words here too.

// The assign of node n.
fn assign(t: &&[u32], s: &mut [i32; 32], n: usize, credit: u64) -> u64
    requires { Of t.now.now n Kind.assign × (0 < credit) }
    ensures { Ran t.now.now n credit s.old result s.new }
{
    if credit == 1 {
        return 0;
    }
    let x = place(t, n, 1);
    s[x] = value_of(t, s, place(t, n, 2));
    credit - 1
}

// The statement of node n. By its kind's number, as the evaluators have it.
#[cycle(branch_exec_repeat)]
fn exec(t: &&[u32], s: &mut [i32; 32], n: usize, credit: u64) -> u64
    requires { Ready t.now.now n statement × (0 < credit) }
    ensures { Ran t.now.now n credit s.old result s.new }
{
    let k = word(t, n, 0);
    match k {
        SKIP => credit,
        ASSIGN => assign(t, s, n, credit),
        SEQUENCE => {
            let left = exec(t, s, place(t, n, 1), credit);
            if left == 0 {
                return 0;
            }
            exec(t, s, place(t, n, 2), left)
        }
        IF => branch(t, s, n, credit),
        _ => repeat(t, s, n, credit),
    }
}

// The if of node n.
#[cycle(branch_exec_repeat)]
fn branch(t: &&[u32], s: &mut [i32; 32], n: usize, credit: u64) -> u64
    requires { Of t.now.now n Kind.if × (0 < credit) }
    ensures { Ran t.now.now n credit s.old result s.new }
{
    if credit == 1 {
        return 0;
    }
    if boolean(t, s, place(t, n, 1)) {
        exec(t, s, place(t, n, 2), credit - 1).saturating_sub(1)
    } else {
        exec(t, s, place(t, n, 3), credit - 1)
    }
}

// The while of node n: a turn of the loop is a test, and a pass where it holds. The loop counts no index: it goes on while there is credit.
#[cycle(branch_exec_repeat)]
fn repeat(t: &&[u32], s: &mut [i32; 32], n: usize, credit: u64) -> u64
    requires { Of t.now.now n Kind.while × (0 < credit) }
    ensures { Ran t.now.now n credit s.old result s.new }
{
    let b = place(t, n, 1);
    let body = place(t, n, 2);
    let mut left = credit;
    while 1 < left {
        if !boolean(t, s, b) {
            return left - 1;
        }
        let more = exec(t, s, body, left - 1);
        if more <= 1 {
            return 0;
        }
        left = more - 1;
    }
    0
}

// Runs the statement of the table's root on the store, within fuel.
pub fn run_source(table: &[u32], store: &mut [i32], fuel: u32) -> Result<End<u32>, Refusal>
    ensures { ended result store.new ≡ source_run table.now store.old fuel }
{
    table::check(table)?;
    if store.len() != 32 {
        return Err(Reason::StoreLength.at(0));
    }
    let root = table.len() / 4 - 1;
    let words = table;
    let mut values = taken(store);
    let left = exec(&words, &mut values, root, u64::from(fuel) + 1);
    put_back(store, &values);
    if left == 0 {
        return Ok(End::OutOfFuel(fuel));
    }
    Ok(End::Finished(fuel - ((left - 1) as u32)))
}
