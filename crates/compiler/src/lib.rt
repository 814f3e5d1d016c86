// The compiler: the code of an accepted table, written to the front of a lent room.
// A word becomes a place by `as`, and a place a word: there is no `From` between `u32` and `usize`.
#![tactic(auto)]

ghost use Rattle.std.specs.Prelude.{◌≡◌, ◌+◌, ◌*◌, ◌≤◌, length};
ghost use Rattle.rules.specs.Answer.{ended};
ghost use Rattle.rules.specs.Compilation.{size};
ghost use Rattle.rules.specs.Table.{Accepted, kind_of, program, root};
ghost use Rattle.compiler.specs.Compiling.{compiling};
ghost use Rattle.compiler.specs.inside.Writing.{Words, number, frame, framed, stm_at, Place, Fits, Written, Kept, adds};

use rules::{Made, Reason, Refusal, WIDTH};

// The kinds of statements that have code of their own, as the words of a table have them. By their numbers: an enum would be made from a word
// only to be matched, in `emit` and in `added`.
const ASSIGN: u32 = 33;

const SEQUENCE: u32 = 34;

const IF: u32 = 35;

const WHILE: u32 = 36;

// What an instruction does, by its number among its words.
#[derive(Clone, Copy)]
enum Operation {
    Assign = 1,
    Goto = 2,
    Ifnot = 3,
}

#[derive(Clone, Copy)]
struct Node {
    kind: u32,
    p: u32,
    q: u32,
    r: u32,
}

// The four words of node n.
fn load(t: &&[u32], n: u32) -> Node
    requires { (4 * n + 4 ≤ length t.now.now) × (length t.now.now ≤ 4096) }
    ensures { Words t.now.now n result.kind result.p result.q result.r }
{
    let at = 4 * (n as usize);
    Node {
        kind: t[at],
        p: t[at + 1],
        q: t[at + 2],
        r: t[at + 3],
    }
}

// The code that is written: the room that it is written to, from the front on, and the label of its first instruction.
#[derive(Drop)]
struct Code<'a> {
    room: &'a mut [u32],
    start: u32,
}

impl Code<'_> {
    // The words of instruction i. That it has room and a label is asked of each i anew, so it is no type's.
    fn put(&mut self, i: u32, operation: Operation, x: u32, y: u32)
        requires { Place (length self.old.room.now) self.old.start i }
        ensures kept { Kept self.old self.new }
        ensures words { self.new.room.now ≡ framed self.old.room.now i (frame (self.old.start + i) (number operation) x y) }
    {
        let room = &mut *self.room;
        let at = WIDTH * (i as usize);
        room[at..at + WIDTH].copy_from_slice(&[self.start + i, operation as u32, x, y]);
    }

    // Instruction i: an assign.
    fn assign(&mut self, i: u32, x: u32, a: u32)
        requires { Place (length self.old.room.now) self.old.start i }
        ensures kept { Kept self.old self.new }
        ensures words { self.new.room.now ≡ framed self.old.room.now i (frame (self.old.start + i) 1 x a) }
    {
        self.put(i, Operation::Assign, x, a);
    }

    // Instruction i: a goto to instruction e.
    fn goto(&mut self, i: u32, e: u32)
        requires { Place (length self.old.room.now) self.old.start i × (self.old.start + e ≤ 65535) }
        ensures kept { Kept self.old self.new }
        ensures words { self.new.room.now ≡ framed self.old.room.now i (frame (self.old.start + i) 2 0 (self.old.start + e)) }
    {
        self.put(i, Operation::Goto, 0, self.start + e);
    }

    // Instruction i: an ifnot to instruction e.
    fn ifnot(&mut self, i: u32, b: u32, e: u32)
        requires { Place (length self.old.room.now) self.old.start i × (self.old.start + e ≤ 65535) }
        ensures kept { Kept self.old self.new }
        ensures words { self.new.room.now ≡ framed self.old.room.now i (frame (self.old.start + i) 3 b (self.old.start + e)) }
    {
        self.put(i, Operation::Ifnot, b, self.start + e);
    }

    // The code of the statement of node n, as the instructions from i on. Returns the number of the instruction after it. What a test jumps
    // over is written before the test.
    // It takes the table by a reference to its slice, which is one pointer: less stack for each level of nesting.
    fn emit(&mut self, t: &&[u32], n: u32, i: u32) -> u32
        requires { Fits t.now.now n self.old.start (length self.old.room.now) i }
        ensures kept { Kept self.old self.new }
        ensures words { Written (stm_at t.now.now n) self.old.start i self.old.room.now self.new.room.now result }
    {
        let d = load(t, n);
        let kind = d.kind;
        match kind {
            ASSIGN => {
                self.assign(i, d.p, d.q);
                i + 1
            }
            SEQUENCE => {
                let m = self.emit(t, d.p, i);
                self.emit(t, d.q, m)
            }
            IF => {
                let m = self.emit(t, d.q, i + 1);
                let e = self.emit(t, d.r, m + 1);
                self.ifnot(i, d.p, m + 1);
                self.goto(m, e);
                e
            }
            WHILE => {
                let m = self.emit(t, d.q, i + 1);
                self.ifnot(i, d.p, m + 1);
                self.goto(m, i);
                m + 1
            }
            _ => i,
        }
    }
}

// The instructions that a node adds to those of its children.
fn added(kind: u32) -> u32
    ensures { (result ≡ adds (kind_of kind)) × (result ≤ 5) }
{
    match kind {
        ASSIGN => 1,
        IF => 2,
        WHILE => 2,
        _ => 0,
    }
}

// How many instructions the code of an accepted table has. Every node is in the root's tree once, so they need not be walked as a tree.
fn count(t: &[u32]) -> u32
    requires { Accepted t.now }
    ensures { result ≡ size (program t.now) }
{
    let mut total = 0;
    for node in t.chunks_exact(4) {
        total += added(node[0]);
    }
    total
}

// The code of the whole table. Returns how many instructions it has.
fn write_code(table: &[u32], start: u32, room: &mut [u32]) -> u32
    requires { Fits table.now (root table.now) start (length room.old) 0 × (length table.now ≤ 4096) }
    ensures { Written (stm_at table.now (root table.now)) start 0 room.old room.new result }
{
    let root = (table.len() / 4 - 1) as u32;
    let words = table;
    let mut code = Code { room, start };
    code.emit(&words, root, 0)
}

// Refusals 11 and 12, and the code of a table that is accepted.
#[tactic(auto, using(crate::proofs::Endings::start_late, crate::proofs::Endings::end_late))]
fn compile_accepted(table: &[u32], start: u32, room: &mut [u32]) -> Result<Made, Refusal>
    requires { Accepted table.now }
    ensures { ended result room.new ≡ compiling table.now start room.old }
{
    if 65535 < start {
        return Err(Reason::Label.at(0));
    }
    let instructions = count(table);
    let end = start + instructions;
    if 65535 < end {
        return Err(Reason::Label.at(0));
    }
    if room.len() < WIDTH * (instructions as usize) {
        return Err(Reason::CodeRoom.at(0));
    }
    write_code(table, start, room);
    Ok(Made { instructions, end })
}

// Compiles a table at a start label, to the front of the room.
pub fn compile(table: &[u32], start: u32, room: &mut [u32]) -> Result<Made, Refusal>
    ensures { ended result room.new ≡ compiling table.now start room.old }
{
    table::check(table)?;
    compile_accepted(table, start, room)
}
