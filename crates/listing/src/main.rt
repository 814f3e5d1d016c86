// The listing program: table text from standard input, its code's text to standard output. It reads one byte more than 1,024 lines
// have. That byte alone makes a 1,025th line, so what follows is not needed (`listing_of_front` of lister/proofs/Front.antt).
#![tactic(auto)]

use std::io;
use std::io::Write;

fn main(rt: HostRuntime) -> io::Result<()> {
    let mut input = [0u8; 33793];
    let read = filling::read_full(&mut rt.stdin(), &mut input)?;
    let mut out = [0u8; 33792];
    let listed = lister::list(&input[..read], &mut out);
    rt.stdout().write_all(&out[0..listed])
}
