// The bits of a 32-bit word: one set, one asked for. A bit's number is taken modulo 32, so that bit k of a row of words is bit k of
// its word k / 32.
#![tactic(auto)]

ghost use Rattle.std.specs.Prelude.{◌≡◌, ◌%◌, eqb};
ghost use Rattle.bits.specs.Bit.{bit, with_bit};

pub fn with(w: u32, k: u32) -> u32
    ensures { result ≡ with_bit w (k % 32) }
{
    w | (1u32 << (k % 32))
}

pub fn has(w: u32, k: u32) -> bool
    ensures { result ≡ eqb (bit w (k % 32)) 1 }
{
    (w >> (k % 32)) % 2 == 1
}
