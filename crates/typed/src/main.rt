// The program `typed`: a rule as a planner types it from standard input, its table text to standard output, which `listing` lists. It reads
// up to 1,048,576 bytes: more than 1,024 nodes take, each in as many brackets as may be, without needless blanks. Of a longer text it says
// only that it is longer, since a beginning does not tell what the whole is.
#![tactic(auto)]

ghost use Rattle.std.specs.Prelude.{◌≡◌, length};

use std::io;
use std::io::Write;

fn room() -> [u8; 1048577]
    ensures { 1048577 ≡ length result }
{
    [0; 1048577]
}

fn main(rt: HostRuntime) -> io::Result<()> {
    let mut text = room();
    let read = filling::read_full(&mut rt.stdin(), &mut text)?;
    if read == 1048577 {
        return rt.stdout().write_all(b"text over 1048576 bytes\n");
    }
    let mut out = [0u8; 33792];
    let written = typist::write_table(&text[..read], &mut out);
    rt.stdout().write_all(&out[0..written])
}
