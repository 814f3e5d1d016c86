// The calls. Each writes its answer, and then what stands in the room or the store that it lent, where that is short.
// A word becomes a place by `as`, and a place a word: there is no `From` between `u32` and `usize`.
ghost use Rattle.std.specs.Prelude.{◌≡◌, length};

use crate::parts::{front, part};
use crate::show;
use rules::Refusal;
use std::io;
use std::io::Print;

// Compiles to the first n words of a room, each aaaaaaaa before the call.
fn compile(rt: &impl Print, table: &[u32], start: u32, n: usize) -> io::Result<()> {
    let mut words = [0xaaaaaaaa; 4100];
    show::answer(rt, compiler::compile(table, start, front(&mut words, n)))?;
    show::words(rt, &words, n)
}

// Zeros but for v1 and v2. A store has 32 values, and one more makes a store that is refused.
fn store(v1: u32, v2: u32) -> [i32; 33]
    ensures { 33 ≡ length result }
{
    let mut values = [0i32; 33];
    values[1] = value::of_word(v1);
    values[2] = value::of_word(v2);
    values
}

// Numbers given: v1, v2, fuel, and the length of the store.
fn source(rt: &impl Print, table: &[u32], given: [u32; 4]) -> io::Result<()> {
    let [v1, v2, fuel, n] = given;
    let n = n as usize;
    let mut values = store(v1, v2);
    show::answer(rt, source::run_source(table, front(&mut values, n), fuel))?;
    show::variables(rt, &values, n)
}

// Numbers given: start label, v1, fuel, and the length of the store.
fn code(rt: &impl Print, table: &[u32], code: &[u32], given: [u32; 4]) -> io::Result<()> {
    let [start, v1, fuel, n] = given;
    let n = n as usize;
    let mut values = store(v1, 0);
    show::answer(
        rt,
        code::run_code(table, code, start, front(&mut values, n), fuel),
    )?;
    show::variables(rt, &values, n)
}

// The same, of the code that the table compiles to, which has twelve words.
fn own_code(rt: &impl Print, table: &[u32], given: [u32; 4]) -> io::Result<()> {
    let mut room = [0u32; 12];
    let _ = compiler::compile(table, given[0], &mut room);
    code(rt, table, &room, given)
}

// Numbers given: start label, values of the stores, fuel, and words of the room, each aaaaaaaa before the call. There are 513 stores to take them
// from, one more than a depot may have, and v1 of crew 1 is 1; all else is 0.
fn depot(rt: &impl Print, table: &[u32], code: &[u32], given: [u32; 4]) -> io::Result<()> {
    let [start, count, fuel, n] = given;
    let n = n as usize;
    let mut values = [0i32; 16416];
    values[33] = 1;
    let mut words = [0xaaaaaaaa; 4100];
    show::answer(
        rt,
        depot::run_depot(
            table,
            code,
            start,
            front(&mut values, count as usize),
            fuel,
            front(&mut words, n),
        ),
    )?;
    show::words(rt, &words, n)?;
    show::crews(rt, &values)
}

// Reads a text or a typed rule to the first n words of a room, each aaaaaaaa before the call.
fn read<F: FnOnce(&[u8], &mut [u32]) -> Result<u32, Refusal>>(
    rt: &impl Print,
    reader: F,
    text: &[u8],
    n: usize,
) -> io::Result<()>
    requires { F.IsAlwaysCallable reader }
{
    let mut words = [0xaaaaaaaa; 4100];
    show::answer(rt, reader(text, front(&mut words, n)))?;
    show::words(rt, &words, n)
}

fn read_front(rt: &impl Print, lines: &[u8; 33825], n: usize) -> io::Result<()> {
    read(rt, reading::read_text, part(lines, 0, n), 4100)
}

// Reads the first n bytes of 1,025 lines of zeros.
fn read_zeros(rt: &impl Print, n: usize) -> io::Result<()> {
    let mut lines = [b'0'; 33825];
    lines[33824] = b'\n';
    let _ = writing::write_text(&[0; 4096], &mut lines);
    read_front(rt, &lines, n)
}

// Writes to the first n bytes of a room, each a point before the call.
fn write(rt: &impl Print, words: &[u32], n: usize) -> io::Result<()> {
    let mut bytes = [b'.'; 33792];
    show::answer(rt, writing::write_text(words, front(&mut bytes, n)))?;
    show::bytes(rt, &bytes, n)
}

// All that the listing program would write.
fn list(rt: &impl Print, input: &[u8]) -> io::Result<()> {
    let mut out = [0u8; 33792];
    let n = lister::list(input, &mut out);
    show::say(rt, &out[0..n])
}

// The call of this kind. The text that it reads stands below its line. By its letter: an enum would be made from the letter only to be matched
// once, here.
pub(crate) fn call(
    rt: &impl Print,
    kind: u8,
    table: &[u32],
    instructions: &[u32],
    below: &[u8],
    given: [u32; 4],
) -> io::Result<()> {
    let first = given[0] as usize;
    let second = given[1] as usize;
    match kind {
        b'k' => show::answer(rt, table::check(table)),
        b'j' => compile(rt, table, given[0], second),
        b's' => source(rt, table, given),
        b'g' => code(rt, table, instructions, given),
        b'o' => own_code(rt, table, given),
        b'd' => depot(rt, table, instructions, given),
        b'r' => read(rt, reading::read_text, part(below, 0, first), second),
        b'p' => read(rt, rule::read_rule, part(below, 0, first), second),
        b'z' => read_zeros(rt, first),
        b'w' => write(rt, table, first),
        b'l' => list(rt, part(below, 0, first)),
        _ => Ok(()),
    }
}
