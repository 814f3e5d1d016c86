// The worked runs of document 01 that are not proved, and vectors of our own: each is run, and its answer written. They are data, in the
// file stdin, whose head says how they are written: so a case costs no proof.
#![tactic(auto)]

use std::io;

mod calls;
mod lines;
mod numbers;
mod parts;
mod show;

fn main(rt: HostRuntime) -> io::Result<()> {
    let mut input = [0u8; 32768];
    let read = filling::read_full(&mut rt.stdin(), &mut input)?;
    lines::run(&rt, &input[..read])
}
