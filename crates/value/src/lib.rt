// Signed 32-bit values that wrap (document 01, "Values").
#![tactic(auto)]

ghost use Rattle.std.specs.Prelude.{◌≡◌, ◌*◌, ◌%◌, pos, ◌<ℤ◌};
ghost use Rattle.rules.specs.Value.{word, value, sum, difference, product, quotient, remainder};

// The two's complement word of a value.
pub fn to_word(v: i32) -> u32
    ensures { result ≡ word v }
{
    v.cast_unsigned()
}

// The value of a two's complement word.
pub fn of_word(w: u32) -> i32
    ensures { result ≡ value w }
{
    w.cast_signed()
}

// `add` and `sub` differ in the operation: one function over it would have to be told which, at each call.
pub fn add(a: i32, b: i32) -> i32
    ensures { result ≡ sum a b }
{
    a.wrapping_add(b)
}

pub fn sub(a: i32, b: i32) -> i32
    ensures { result ≡ difference a b }
{
    a.wrapping_sub(b)
}

// The product of two words modulo 2 ^ 32. Document 01 ("Forms by place") asks for a product helper of one's own, through 64 bits.
fn wrapping_mul(a: u32, b: u32) -> u32
    ensures { result ≡ a * b % 4294967296 }
{
    (u64::from(a) * u64::from(b) % 4294967296) as u32
}

pub fn mul(a: i32, b: i32) -> i32
    ensures { result ≡ product a b }
{
    of_word(wrapping_mul(to_word(a), to_word(b)))
}

// By a negative divisor. The machine drops a fraction towards zero. Between unlike signs that is upwards: there the dividend goes one nearer to zero
// first, and the quotient one down. -2147483648 by -1 has no machine quotient, and wraps.
#[tactic(auto, using(crate::proofs::TowardsZero::wrapping_div_is))]
fn by_negative(a: i32, b: i32) -> i32
    requires { b <ℤ pos 0 }
    ensures { result ≡ quotient a b }
{
    if a > 0 {
        (a - 1) / b - 1
    } else {
        a.wrapping_div(b)
    }
}

// The sign goes first, so that by a positive divisor neither 0 nor -1 has to be looked for.
#[tactic(auto, using(crate::proofs::TowardsZero::div_euclid_is))]
pub fn div(a: i32, b: i32) -> i32
    ensures { result ≡ quotient a b }
{
    if b > 0 {
        a.div_euclid(b)
    } else if b < 0 {
        by_negative(a, b)
    } else {
        0
    }
}

pub fn rem(a: i32, b: i32) -> i32
    ensures { result ≡ remainder a b }
{
    sub(a, mul(div(a, b), b))
}
