// One token of a text, found where the machine on numbers stands: its kind and its number, where it ends, and the move that it
// makes; or the place where nothing leads on. The text goes whole, with a place in it, since places are told in the whole text. What is asked of a
// place, a kind or a class is asked where it is: each is a number that a caller has just tested, and a type for it would be made for one call.
#![tactic(auto)]

mod digits;
pub mod moves;
mod quick;
mod scan;
pub mod tables;

ghost use Rattle.std.specs.Prelude.{◌≡◌, ◌<◌, ◌≤◌, IfSome, MatchResult};
ghost use Rattle.tokens.specs.Arrays.{standing};
ghost use Rattle.tokens.specs.Scan.{StuckAt};
ghost use Rattle.tokens.specs.Taken.{AtClass, NumberIs, Taken};
ghost use Rattle.tokens.specs.Promise.{AtByte};
ghost use Rattle.tokens.specs.Quick.{ClassAt, Held, Quick};

use crate::moves::{Place, Stack, Standing};

// What is scanned: a token's kind, what it carries, and where it ends. A kind stays a number: it is a column of the tables, and what is left
// of the class of a byte that is a token by itself.
#[derive(Clone, Copy)]
pub struct Lexeme {
    pub kind: u32,
    pub value: u32,
    pub end: usize,
}

// A token's kind, its number, where it ends, and its move.
#[derive(Clone, Copy)]
pub struct Found {
    pub kind: u32,
    pub number: u32,
    pub end: usize,
    pub place: Place,
}

impl Lexeme {
    // The token that is scanned, with its move.
    fn moving(self, place: Place) -> Found
        ensures numbered { NumberIs self.kind self.value result.number }
        ensures kept { (result.kind ≡ self.kind) × (result.end ≡ self.end) × (result.place ≡ place) }
    {
        Found {
            kind: self.kind,
            number: tables::number_of(self.kind, self.value),
            end: self.end,
            place,
        }
    }
}

// Where the fast path finds no token that may follow: every token is tried, and the place is told. Its caller stands in numbers of their own, and
// not in a struct, so that nothing is stored for it where the fast path finds the token. With the struct a rule takes 0.4 % more instructions,
// a deep one 0.6 %.
fn slow_token(
    text: &[u8],
    at: usize,
    stack: &Stack,
    mode: u32,
    left: u32,
    top: usize,
) -> Result<Found, usize>
    requires { AtByte text.now at (record { mode = mode; left = left; top = top }) }
    ensures { MatchResult result (λ t. Taken text.now at stack.now.tags (record { mode = mode; left = left; top = top }) t)
        (StuckAt text.now at (standing stack.now.tags (record { mode = mode; left = left; top = top }))) }
{
    let s = Standing { mode, left, top };
    let t = scan::scan_token(text, at, stack, s)?;
    Ok(t.moving(stack.locate(s, t.kind)))
}

// The token at `at`, where the fast path has found `quick`: that one if it may follow. With one copy of it for both
// callers a rule takes 27 % more instructions, a deep one 58 %.
#[inline(always)]
fn token(
    text: &[u8],
    at: usize,
    quick: Option<Lexeme>,
    stack: &Stack,
    s: Standing,
) -> Result<Found, usize>
    requires { AtByte text.now at s × IfSome quick (λ t. Quick text.now at t.kind t.value t.end) }
    ensures { MatchResult result (λ t. Taken text.now at stack.now.tags s t)
        (StuckAt text.now at (standing stack.now.tags s)) }
{
    if let Some(t) = quick {
        let place = stack.locate(s, t.kind);
        if place.act != 0 {
            return Ok(t.moving(place));
        }
    }
    // Taken apart: what the fast path finds then stays in registers, and is not laid down where the slow path would.
    let t = slow_token(text, at, stack, s.mode, s.left, s.top)?;
    Ok(t)
}

// A number or a variable by the class of its first byte. Whoever takes it sees to it that no letter or digit goes on.
pub fn operand(text: &[u8], at: usize, class: u32) -> Option<Lexeme>
    requires { ClassAt text.now at class }
    ensures { IfSome result (λ t. Held text.now at t.kind t.value t.end × (27 ≤ t.kind) × (t.kind < 29)) }
{
    match class {
        59 => Some(digits::number(text, at)),
        60 => digits::variable(text, at),
        _ => None,
    }
}

// The token at `at`, where no blank stands, by the class of its first byte: quickly if a phrase is to begin.
pub fn token_wanted(
    text: &[u8],
    at: usize,
    class: u32,
    stack: &Stack,
    s: Standing,
) -> Result<Found, usize>
    requires { AtClass text.now at class s }
    ensures { MatchResult result (λ t. Taken text.now at stack.now.tags s t)
        (StuckAt text.now at (standing stack.now.tags s)) }
{
    token(text, at, quick::wanted(text, at, class), stack, s)
}

// The same: quickly if a phrase is at hand. It stands apart, for whoever calls knows which of the two it is, and need not be asked again.
pub fn token_following(
    text: &[u8],
    at: usize,
    class: u32,
    stack: &Stack,
    s: Standing,
) -> Result<Found, usize>
    requires { AtClass text.now at class s }
    ensures { MatchResult result (λ t. Taken text.now at stack.now.tags s t)
        (StuckAt text.now at (standing stack.now.tags s)) }
{
    token(text, at, quick::following(text, at, class), stack, s)
}
