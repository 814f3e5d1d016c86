// How an answer is written: its case, then its numbers in decimal, on one line.
use crate::parts::part;
use rules::{End, Halt, Made, Refusal};
use std::io;
use std::io::{Print, Write};

pub(crate) fn say(rt: &impl Print, text: &[u8]) -> io::Result<()> {
    io::writer(rt).write_all(text)
}

// What a call has done, as its line tells it.
pub(crate) trait Told {
    fn tell(self, rt: &impl Print) -> io::Result<()>;
}

impl Told for () {
    fn tell(self, rt: &impl Print) -> io::Result<()> {
        println!(rt; "done")
    }
}

impl Told for Made {
    fn tell(self, rt: &impl Print) -> io::Result<()> {
        println!(rt;
            "done, instructions {}, end {}",
            self.instructions, self.end
        )
    }
}

impl Told for End<u32> {
    fn tell(self, rt: &impl Print) -> io::Result<()> {
        match self {
            End::Finished(steps) => println!(rt; "finished, steps {steps}"),
            End::OutOfFuel(steps) => println!(rt; "out of fuel, steps {steps}"),
        }
    }
}

impl Told for End<Halt> {
    fn tell(self, rt: &impl Print) -> io::Result<()> {
        match self {
            End::Finished(h) => println!(rt; "finished at {}, steps {}", h.label, h.steps),
            End::OutOfFuel(h) => println!(rt; "out of fuel at {}, steps {}", h.label, h.steps),
        }
    }
}

// How many words or bytes were written.
impl Told for u32 {
    fn tell(self, rt: &impl Print) -> io::Result<()> {
        println!(rt; "done, {self}")
    }
}

// The line of an answer. A refusal is told alike by all calls.
pub(crate) fn answer<T: Told>(rt: &impl Print, answer: Result<T, Refusal>) -> io::Result<()> {
    match answer {
        Ok(done) => done.tell(rt),
        Err(r) => println!(rt; "refused {} at {}", r.reason.number(), r.place),
    }
}

// Of a room of up to eight words the first eight, as two lines of text.
pub(crate) fn words(rt: &impl Print, room: &[u32; 4100], n: usize) -> io::Result<()> {
    if n <= 8 {
        let mut lines = [0u8; 66];
        let _ = writing::write_text(part(room, 0, 8), &mut lines);
        say(rt, &lines)?;
    }
    Ok(())
}

// Of a room of up to 34 bytes the first 34.
pub(crate) fn bytes(rt: &impl Print, room: &[u8; 33792], n: usize) -> io::Result<()> {
    if n <= 34 {
        say(rt, part(room, 0, 34))?;
        say(rt, b"\n")?;
    }
    Ok(())
}

// v1 of the first two crews.
pub(crate) fn crews(rt: &impl Print, values: &[i32; 16416]) -> io::Result<()> {
    println!(rt; "  v1 = {} and {}", values[1], values[33])
}

// The first two values of a store, where it is one.
pub(crate) fn variables(rt: &impl Print, values: &[i32; 33], n: usize) -> io::Result<()> {
    if n == 32 {
        println!(rt; "  v0 = {}, v1 = {}", values[0], values[1])?;
    }
    Ok(())
}
