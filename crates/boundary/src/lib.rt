// The calls of the C boundary: each public function under a plain name, its answer told in eight words. The crate boundary_c exports them to C, and
// include/rillgiggle.h has them for C.
#![tactic(auto)]

ghost use Rattle.std.specs.Prelude.{◌≡◌, ℕ, List};
ghost use Rattle.rules.specs.Answer.{eight, ended};
ghost use Rattle.depot.specs.Depot.{lent};
ghost use Rattle.boundary.specs.inside.Told.{told_by, source_end_words, code_end_words};
ghost use Rattle.boundary.specs.Calls.{check_call, compile_call, source_call, code_call, depot_call, read_call, write_call, rule_call};

use rules::{End, Halt, Made, Refusal};

// ---- the words of each answer

// The words 5 to 7 are for later requests.
fn eight(verdict: u32, number: u32, place: u32, label: u32, amount: u32) -> [u32; 8]
    ensures { result ≡ eight verdict number place label amount }
{
    [verdict, number, place, label, amount, 0, 0, 0]
}

// What a call has done, as words. A refusal is told alike by all calls.
trait Told {
    ghost words: { Self → List ℕ };

    fn words(self) -> [u32; 8]
        ensures { result ≡ words self };
}

impl Told for () {
    ghost words = { λ done. eight 0 0 0 0 0 };

    fn words(self) -> [u32; 8] {
        eight(0, 0, 0, 0, 0)
    }
}

impl Told for Made {
    ghost words = { λ made. eight 0 0 0 made.end made.instructions };

    fn words(self) -> [u32; 8] {
        eight(0, 0, 0, self.end, self.instructions)
    }
}

impl Told for End<u32> {
    ghost words = { source_end_words };

    fn words(self) -> [u32; 8] {
        match self {
            End::Finished(steps) => eight(1, 0, 0, 0, steps),
            End::OutOfFuel(steps) => eight(2, 0, 0, 0, steps),
        }
    }
}

impl Told for End<Halt> {
    ghost words = { code_end_words };

    fn words(self) -> [u32; 8] {
        match self {
            End::Finished(halt) => eight(1, 0, 0, halt.label, halt.steps),
            End::OutOfFuel(halt) => eight(2, 0, 0, halt.label, halt.steps),
        }
    }
}

// How many words or bytes were written.
impl Told for u32 {
    ghost words = { λ amount. eight 0 0 0 0 amount };

    fn words(self) -> [u32; 8] {
        eight(0, 0, 0, 0, self)
    }
}

fn tell<T: Told>(told: Result<T, Refusal>, answer: &mut [u32; 8])
    ensures { answer.new ≡ told_by T.words told }
{
    *answer = match told {
        Ok(done) => done.words(),
        Err(r) => eight(3, r.reason.number(), r.place, 0, 0),
    };
}

// ---- the calls

pub fn rill_check(table: &[u32], answer: &mut [u32; 8])
    ensures { answer.new ≡ check_call table.now }
{
    let checked = table::check(table);
    tell(checked, answer);
}

pub fn rill_compile(table: &[u32], start: u32, room: &mut [u32], answer: &mut [u32; 8])
    ensures { ended answer.new room.new ≡ compile_call table.now start room.old }
{
    let compiled = compiler::compile(table, start, room);
    tell(compiled, answer);
}

pub fn rill_run_source(table: &[u32], store: &mut [i32], fuel: u32, answer: &mut [u32; 8])
    ensures { ended answer.new store.new ≡ source_call table.now store.old fuel }
{
    let run = source::run_source(table, store, fuel);
    tell(run, answer);
}

pub fn rill_run_code(
    table: &[u32],
    code: &[u32],
    start: u32,
    store: &mut [i32],
    fuel: u32,
    answer: &mut [u32; 8],
)
    ensures { ended answer.new store.new ≡ code_call table.now code.now start store.old fuel }
{
    let run = code::run_code(table, code, start, store, fuel);
    tell(run, answer);
}

pub fn rill_run_depot(
    table: &[u32],
    code: &[u32],
    start: u32,
    stores: &mut [i32],
    fuel: u32,
    room: &mut [u32],
    answer: &mut [u32; 8],
)
    ensures { ended answer.new (lent stores.new room.new)
        ≡ depot_call table.now code.now start stores.old fuel room.old }
{
    let ran = depot::run_depot(table, code, start, stores, fuel, room);
    tell(ran, answer);
}

pub fn rill_read_text(text: &[u8], room: &mut [u32], answer: &mut [u32; 8])
    ensures { ended answer.new room.new ≡ read_call text.now room.old }
{
    let read = reading::read_text(text, room);
    tell(read, answer);
}

pub fn rill_write_text(words: &[u32], room: &mut [u8], answer: &mut [u32; 8])
    ensures { ended answer.new room.new ≡ write_call words.now room.old }
{
    let written = writing::write_text(words, room);
    tell(written, answer);
}

pub fn rill_read_rule(text: &[u8], room: &mut [u32], answer: &mut [u32; 8])
    ensures { ended answer.new room.new ≡ rule_call text.now room.old }
{
    let typed = rule::read_rule(text, room);
    tell(typed, answer);
}
