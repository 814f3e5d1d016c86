// The token at a place, of all that may follow where the machine on numbers stands; or the place where the text is stuck.
ghost use Rattle.std.specs.Prelude.{◌≡◌, ◌<◌, ◌≤◌, length, drop, MatchResult};
ghost use Rattle.tokens.specs.Shape.{may};
ghost use Rattle.tokens.specs.Arrays.{standing};
ghost use Rattle.tokens.specs.Scan.{spelled_at, common, is_word_kind, Scanned, StuckAt};
ghost use Rattle.tokens.specs.Promise.{Turn, Considered, Furthermost, DigitAt, VAt, AtFixed, AtByte};

use crate::moves::{Stack, Standing};
use crate::{Lexeme, digits, tables};

// How far a fixed token is there, and which is there whole, if one is.
#[derive(Clone, Copy)]
pub struct Furthest {
    pub best: usize,
    pub found: Option<u32>,
}

fn allowed(stack: &Stack, s: Standing, kind: u32) -> bool
    requires { s.top ≤ 1600 }
    ensures { result ≡ may (standing stack.now.tags s) kind }
{
    let p = stack.locate(s, kind);
    p.act != 0
}

// ---- fixed tokens

// How far the token k is there.
fn common_length(text: &[u8], at: usize, k: u32) -> usize
    requires { (at ≤ length text.now) × (k < 27) }
    ensures { result ≡ common (spelled_at k) (drop at text.now) }
{
    let len = tables::length_of(k);
    let left = text.len() - at;
    for j in 0..len {
        if left <= j {
            return j;
        }
        if text[at + j] != tables::letter_of(k, j) {
            return j;
        }
    }
    len
}

// The token k too.
fn consider(text: &[u8], at: usize, stack: &Stack, s: Standing, k: u32, f: Furthest) -> Furthest
    requires { Turn text.now at stack.now.tags s k f }
    ensures { Considered text.now at stack.now.tags s k result }
{
    let l = common_length(text, at, k);
    let best = f.best;
    if l == 0 {
        return f;
    }
    if l < best {
        return f;
    }
    if !allowed(stack, s, k) {
        return f;
    }
    if l == tables::length_of(k) {
        return Furthest {
            best: l,
            found: Some(k),
        };
    }
    if best < l {
        return Furthest {
            best: l,
            found: None,
        };
    }
    f
}

fn look(text: &[u8], at: usize, stack: &Stack, s: Standing) -> Furthest
    requires { (at ≤ length text.now) × (s.top ≤ 1600) }
    ensures { Furthermost text.now at stack.now.tags s result }
{
    let mut f = Furthest {
        best: 0,
        found: None,
    };
    for k in 0..27 {
        f = consider(text, at, stack, s, k, f);
    }
    f
}

fn is_word_kind(k: u32) -> bool
    ensures { result ≡ is_word_kind k }
{
    (k < 10) | (24 < k)
}

fn scan_fixed(text: &[u8], at: usize, stack: &Stack, s: Standing) -> Result<Lexeme, usize>
    requires { AtFixed text.now at s }
    ensures { MatchResult result (λ t. Scanned text.now at (standing stack.now.tags s) t.kind t.value t.end)
        (StuckAt text.now at (standing stack.now.tags s)) }
{
    let f = look(text, at, stack, s);
    let end = at + f.best;
    let kind = f.found.ok_or(end)?;
    if is_word_kind(kind) & tables::word_goes_on(text, end) {
        return Err(end);
    }
    Ok(Lexeme {
        kind,
        value: 0,
        end,
    })
}

// ---- numbers and variables

fn scan_number(text: &[u8], at: usize, stack: &Stack, s: Standing) -> Result<Lexeme, usize>
    requires { (s.top ≤ 1600) × DigitAt text.now at }
    ensures { MatchResult result (λ t. Scanned text.now at (standing stack.now.tags s) t.kind t.value t.end)
        (StuckAt text.now at (standing stack.now.tags s)) }
{
    if !allowed(stack, s, 27) {
        return Err(at);
    }
    let n = digits::number(text, at);
    if tables::word_goes_on(text, n.end) {
        return Err(n.end);
    }
    Ok(n)
}

fn scan_variable(text: &[u8], at: usize, stack: &Stack, s: Standing) -> Result<Lexeme, usize>
    requires { (s.top ≤ 1600) × VAt text.now at }
    ensures { MatchResult result (λ t. Scanned text.now at (standing stack.now.tags s) t.kind t.value t.end)
        (StuckAt text.now at (standing stack.now.tags s)) }
{
    if !allowed(stack, s, 28) {
        return Err(at);
    }
    let Some(n) = digits::variable(text, at) else {
        return Err(at + 1);
    };
    if tables::word_goes_on(text, n.end) {
        return Err(n.end);
    }
    Ok(n)
}

// The token at `at`, where no blank stands.
pub fn scan_token(text: &[u8], at: usize, stack: &Stack, s: Standing) -> Result<Lexeme, usize>
    requires { AtByte text.now at s }
    ensures { MatchResult result (λ t. Scanned text.now at (standing stack.now.tags s) t.kind t.value t.end)
        (StuckAt text.now at (standing stack.now.tags s)) }
{
    let b = text[at];
    if digits::is_digit(b) {
        return scan_number(text, at, stack, s);
    }
    if b == b'v' {
        return scan_variable(text, at, stack, s);
    }
    scan_fixed(text, at, stack, s)
}
