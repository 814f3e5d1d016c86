// The lines of the cases: a line lays words, is a heading, or has a title and makes a call.
use crate::numbers::{ROOM, Words};
use crate::parts::part;
use crate::{calls, numbers, show};
use std::io;
use std::io::Print;

// How many words the table has, and how many it has with the code behind it.
#[derive(Clone, Copy)]
struct Laid {
    table: usize,
    code: usize,
}

// A line with no title. By its letter, as a call is: an enum would be made from the letter only to be matched once.
fn lay(rt: &impl Print, kind: u8, line: &[u8], words: &mut Words, laid: Laid) -> io::Result<Laid> {
    match kind {
        b't' => {
            let table = numbers::lay(line, words, 0);
            Ok(Laid { table, code: table })
        }
        b'i' => {
            let code = numbers::lay(line, words, laid.table);
            Ok(Laid { code, ..laid })
        }
        b'-' => {
            show::say(rt, line)?;
            Ok(laid)
        }
        _ => Ok(laid),
    }
}

// The title of a call. A listing begins on a line of its own.
fn title(rt: &impl Print, kind: u8, text: &[u8]) -> io::Result<()> {
    show::say(rt, text)?;
    if kind == b'l' {
        show::say(rt, b"\n")
    } else {
        show::say(rt, b": ")
    }
}

// The four numbers behind a colon. Where the fourth is left out it is 32, as many values as a store has.
fn given(behind: &[u8]) -> [u32; 4] {
    let mut numbers = [0u32; ROOM];
    numbers[3] = 32;
    numbers::lay(behind, &mut numbers, 0);
    [numbers[0], numbers[1], numbers[2], numbers[3]]
}

// A line, and what stands below it. A call's title stands before the last colon, its numbers behind it, and the text that it reads below its line.
// A line whose only colon begins it has no title, and is passed over.
fn line(
    rt: &impl Print,
    line: &[u8],
    below: &[u8],
    words: &mut Words,
    laid: Laid,
) -> io::Result<Laid> {
    let Some(&kind) = line.first() else {
        return Ok(laid);
    };
    let Some(colon) = line.iter().rposition(|b| *b == b':') else {
        return lay(rt, kind, line, words, laid);
    };
    if 0 < colon && kind != b'#' && kind != b' ' {
        title(rt, kind, part(line, 2, colon))?;
        let words: &[u32] = words;
        let table = part(words, 0, laid.table);
        let code = part(words, laid.table, laid.code);
        let behind = part(line, colon, line.len());
        calls::call(rt, kind, table, code, below, given(behind))?;
    }
    Ok(laid)
}

// Line by line. What stands behind the last line end is no line. A call needs what stands below its line too, so no `split` goes over them.
pub(crate) fn run(rt: &impl Print, text: &[u8]) -> io::Result<()> {
    let mut words = [0u32; ROOM];
    let mut laid = Laid { table: 0, code: 0 };
    let mut rest = text;
    while let Some(end) = rest.iter().position(|b| *b == b'\n') {
        let (first, below) = rest.split_at(end + 1);
        laid = line(rt, first, below, &mut words, laid)?;
        rest = below;
    }
    Ok(())
}
