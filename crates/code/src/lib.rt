// The code run: the steps of Fig. 1 within fuel, on a table, code, start label and store that are checked first.
// A word becomes a place by `as`: there is no `From` between `u32` and `usize`.
#![tactic(auto)]

mod labels;

ghost use Rattle.std.specs.Prelude.{◌≡◌, Ok};
ghost use Rattle.std.proofs.Math.Option.{none};
ghost use Rattle.rules.specs.Answer.{ended};
ghost use Rattle.rules.specs.Goto.{run};
ghost use Rattle.rules.specs.Table.{meaning};
ghost use Rattle.rules.specs.CodeWords.{code_of};
ghost use Rattle.code.specs.CodeRun.{code_run_refusal, code_end, code_run};
ghost use Rattle.code.specs.inside.Running.{Admitted, Stands, Stepped};

use instructions::{ASSIGN, GOTO};
use labels::{Code, Spot};
use lent::{part, put_back, taken};
use rules::{End, Halt, Refusal};

// One step of Fig. 1, by instruction k. The last arm is IFNOT: in code that stands no other operation is left, and that is the proof's to show.
fn step(t: &&[u32], c: &Code, k: usize, store: &mut [i32; 32]) -> Spot
    requires { Stands t.now.now c.now.words.now k store.old }
    ensures { Stepped t.now.now c.now.words.now k store.old result.label result.place store.new }
{
    let o = part(c.words, k, 1);
    let x = part(c.words, k, 2) as usize;
    let y = part(c.words, k, 3);
    match o {
        ASSIGN => {
            let v = evaluate::value_of(t, store, y as usize);
            store[x] = v;
            c.after(k)
        }
        GOTO => c.jump(y),
        _ => {
            if evaluate::truth_of(t, store, x) {
                c.after(k)
            } else {
                c.jump(y)
            }
        }
    }
}

// The run from a label: one unit of fuel a turn, the finish tested before the fuel.
#[tactic(auto, using(crate::proofs::Along::at_finish))]
fn run_from(t: &&[u32], c: &[u32], start: u32, store: &mut [i32; 32], fuel: u32) -> End<Halt>
    requires { Admitted t.now.now c.now store.old }
    ensures { ended (Ok result) store.new ≡ code_end fuel (run (meaning t.now.now) (code_of c.now) fuel start store.old) }
{
    let code = Code { words: c };
    let mut at = code.jump(start);
    let mut steps = 0;
    while let Some(k) = at.place {
        let label = at.label;
        if steps == fuel {
            return End::OutOfFuel(Halt { label, steps });
        }
        at = step(t, &code, k, store);
        steps += 1;
    }
    let label = at.label;
    End::Finished(Halt { label, steps })
}

// The code run behind its checks, on the lent store, which is taken at the start and put back at the end. It asks (`requires`) that the checks
// refuse nothing: `run_code` makes them for one store, a depot once for all of its crews.
pub fn run_admitted(
    table: &[u32],
    code: &[u32],
    start: u32,
    store: &mut [i32],
    fuel: u32,
) -> End<Halt>
    requires { code_run_refusal table.now code.now start store.old ≡ none }
    ensures { ended (Ok result) store.new ≡ code_run table.now code.now start store.old fuel }
{
    let words = table;
    let mut values = taken(store);
    let ran = run_from(&words, code, start, &mut values, fuel);
    put_back(store, &values);
    ran
}

// The steps of the code from the start label, on the store.
pub fn run_code(
    table: &[u32],
    code: &[u32],
    start: u32,
    store: &mut [i32],
    fuel: u32,
) -> Result<End<Halt>, Refusal>
    ensures { ended result store.new ≡ code_run table.now code.now start store.old fuel }
{
    instructions::admit(table, code, start, store.len() == 32)?;
    Ok(run_admitted(table, code, start, store, fuel))
}
