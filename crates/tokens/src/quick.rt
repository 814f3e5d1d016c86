// The fast path: the class of the first byte tells which token to look for, and the bytes to look for stand in the code. What it finds is
// there; for what it does not find the slow path looks.
ghost use Rattle.std.specs.Prelude.{◌≡◌, ◌≤◌, length, IfSome};
ghost use Rattle.tokens.specs.Quick.{ClassAt, Next, Are, Begun, Held, Quick};

use crate::{Lexeme, digits, tables};

// ---- whether these bytes are at a place

fn next_is(text: &[u8], at: usize, b: u8) -> bool
    ensures { Next text.now at b result }
{
    if text.len() <= at {
        return false;
    }
    text[at] == b
}

fn are<const N: usize>(text: &[u8], at: usize, bytes: &[u8; N]) -> bool
    requires { at ≤ length text.now }
    ensures { Are text.now at bytes.now result }
{
    text[at..].starts_with(bytes)
}

// ---- signs

fn fixed(kind: u32, end: usize) -> Option<Lexeme>
    ensures { result ≡ Some (record { kind = kind; value = 0; end = end }) }
{
    Some(Lexeme {
        kind,
        value: 0,
        end,
    })
}

fn becomes(text: &[u8], at: usize) -> Option<Lexeme>
    requires { ClassAt text.now at 11 }
    ensures { IfSome result (λ t. Quick text.now at t.kind t.value t.end) }
{
    if next_is(text, at + 1, b'=') {
        return fixed(11, at + 2);
    }
    None
}

// `<=` is tried before `<`.
fn at_most_or_less(text: &[u8], at: usize) -> Option<Lexeme>
    requires { ClassAt text.now at 23 }
    ensures { IfSome result (λ t. Quick text.now at t.kind t.value t.end) }
{
    if next_is(text, at + 1, b'=') {
        return fixed(23, at + 2);
    }
    fixed(24, at + 1)
}

// ---- words, which no letter or digit may go on with

fn parted(text: &[u8], at: usize, t: Lexeme) -> Option<Lexeme>
    requires { Held text.now at t.kind t.value t.end }
    ensures { IfSome result (λ t. Quick text.now at t.kind t.value t.end) }
{
    if tables::word_goes_on(text, t.end) {
        return None;
    }
    Some(t)
}

// The word of this kind, whose first letter is there: the others are to follow.
fn word<const N: usize>(text: &[u8], at: usize, kind: u32, others: &[u8; N]) -> Option<Lexeme>
    requires { Begun text.now at kind others.now }
    ensures { IfSome result (λ t. Quick text.now at t.kind t.value t.end) }
{
    if !are(text, at + 1, others) {
        return None;
    }
    parted(
        text,
        at,
        Lexeme {
            kind,
            value: 0,
            end: at + (1 + N),
        },
    )
}

fn else_or_end(text: &[u8], at: usize) -> Option<Lexeme>
    requires { ClassAt text.now at 35 }
    ensures { IfSome result (λ t. Quick text.now at t.kind t.value t.end) }
{
    if next_is(text, at + 1, b'l') {
        return word(text, at, 3, b"lse");
    }
    word(text, at, 4, b"nd")
}

// A token that is there whole and parted from what follows, of those that begin a phrase. A class stays a number: it is made of a kind and
// of two bits, as specs/Tables has it.
pub fn wanted(text: &[u8], at: usize, class: u32) -> Option<Lexeme>
    requires { ClassAt text.now at class }
    ensures { IfSome result (λ t. Quick text.now at t.kind t.value t.end) }
{
    match class {
        11 => becomes(text, at),
        32 => word(text, at, 0, b"kip"),
        33 => word(text, at, 1, b"f"),
        34 => word(text, at, 25, b"rue"),
        37 => word(text, at, 5, b"hile"),
        39 => word(text, at, 7, b"hoose"),
        40 => word(text, at, 8, b"ot"),
        58 => word(text, at, 26, b"alse"),
        59 => parted(text, at, digits::number(text, at)),
        60 => parted(text, at, digits::variable(text, at)?),
        77 => fixed(13, at + 1),
        79 => fixed(15, at + 1),
        _ => None,
    }
}

// The same, of those that follow a phrase.
pub fn following(text: &[u8], at: usize, class: u32) -> Option<Lexeme>
    requires { ClassAt text.now at class }
    ensures { IfSome result (λ t. Quick text.now at t.kind t.value t.end) }
{
    if 63 < class {
        return fixed(class - 64, at + 1);
    }
    match class {
        23 => at_most_or_less(text, at),
        34 => word(text, at, 2, b"hen"),
        35 => else_or_end(text, at),
        38 => word(text, at, 6, b"o"),
        41 => word(text, at, 9, b"nd"),
        _ => None,
    }
}
