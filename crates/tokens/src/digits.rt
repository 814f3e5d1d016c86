// Digits, and the numbers that they make.
ghost use Rattle.std.specs.Prelude.{◌≡◌, ◌+◌, true, false, ◌<◌, ◌≤◌, length, get_or, IfSome, IfNone};
ghost use Rattle.grammar.specs.Spelling.{is_digit};
ghost use Rattle.grammar.specs.machine.Bytes.{longer};
ghost use Rattle.tokens.specs.Scan.{DigitsRead};
ghost use Rattle.tokens.specs.Promise.{DigitAt, VAt};

use crate::Lexeme;

#[derive(Clone, Copy)]
pub struct Run {
    pub end: usize,
    pub value: u32,
}

pub fn is_digit(b: u8) -> bool
    ensures { result ≡ is_digit b }
{
    b.is_ascii_digit()
}

// The digit b may follow the number n.
fn goes_on(most: u32, n: u32, b: u8) -> bool
    requires { most ≤ 2147483647 }
    ensures { result ≡ longer most n b }
{
    if is_digit(b) & (0 < n) {
        10 * u64::from(n) + u64::from(b - b'0') <= u64::from(most)
    } else {
        false
    }
}

// The number whose first digit is at `at`. Where it ends is told too, so the loop counts the place:
// a `for` over the bytes would count beside it.
fn scan_digits(text: &[u8], at: usize, most: u32) -> Run
    requires { (at < length text.now) × (is_digit (get_or text.now at 0) ≡ true) × (most ≤ 2147483647) }
    ensures { DigitsRead most text.now at result.end result.value }
{
    let mut n = u32::from(text[at] - b'0');
    let mut end = at + 1;
    while end < text.len() && goes_on(most, n, text[end]) {
        n = 10 * n + u32::from(text[end] - b'0');
        end += 1;
    }
    Run { end, value: n }
}

// ---- tokens; that nothing goes on with them is still to be seen

// The number whose first digit is at `at`.
pub fn number(text: &[u8], at: usize) -> Lexeme
    requires { DigitAt text.now at }
    ensures { (result.kind ≡ 27) × DigitsRead 2147483647 text.now at result.end result.value }
{
    let n = scan_digits(text, at, 2147483647);
    Lexeme {
        kind: 27,
        value: n.value,
        end: n.end,
    }
}

// The variable whose v is at `at`, if a digit follows.
pub fn variable(text: &[u8], at: usize) -> Option<Lexeme>
    requires { VAt text.now at }
    ensures there { IfSome result (λ t. (t.kind ≡ 28) × DigitsRead 31 text.now (at + 1) t.end t.value) }
    ensures bare { IfNone result (at + 1 < length text.now → is_digit (get_or text.now (at + 1) 0) ≡ false) }
{
    let next = at + 1;
    if text.len() <= next {
        return None;
    }
    if !is_digit(text[next]) {
        return None;
    }
    let n = scan_digits(text, next, 31);
    Some(Lexeme {
        kind: 28,
        value: n.value,
        end: n.end,
    })
}
