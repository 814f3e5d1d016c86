// How a run reads the table and the code that it is lent, and keeps the store. They are parts of the runs and of the check of code, and ask (`requires`) what those know:
// a caller has to prove it. Table and code are words, as C lends them.
// A word becomes a place by `as`, and a place a word: there is no `From` between `u32` and `usize`.
#![tactic(auto)]

pub mod kinds;

ghost use Rattle.std.specs.Prelude.{◌≡◌, ◌+◌, ◌*◌, ◌<◌, length};
ghost use Rattle.rules.specs.Table.{field};
ghost use Rattle.rules.specs.CodeWords.{width, part as part_of};
ghost use Rattle.lent.specs.Within.{Within};

use rules::WIDTH;

// Word i of node n.
pub fn word(t: &&[u32], n: usize, i: usize) -> u32
    requires { Within t.now.now n i }
    ensures { result ≡ field t.now.now n i }
{
    t[4 * n + i]
}

// The same, as a node or a variable.
pub fn place(t: &&[u32], n: usize, i: usize) -> usize
    requires { Within t.now.now n i }
    ensures { result ≡ field t.now.now n i }
{
    word(t, n, i) as usize
}

// Word i of instruction k.
pub fn part(c: &[u32], k: usize, i: usize) -> u32
    requires { width * k + i < length c.now }
    ensures { result ≡ part_of c.now k i }
{
    c[WIDTH * k + i]
}

// A run keeps its store in an array of its own, which a call passes on as one pointer: taken at the start, put back at the end. Value by value:
// `copy_from_slice` is a call of its own, and measures 5 to 7 % more instructions for a depot's crew.
pub fn taken(s: &[i32]) -> [i32; 32]
    requires { length s.now ≡ 32 }
    ensures { result ≡ s.now }
{
    let mut v = [0i32; 32];
    for i in 0..32 {
        v[i] = s[i];
    }
    v
}

pub fn put_back(s: &mut [i32], v: &[i32; 32])
    requires { (length s.old ≡ 32) × (length v.now ≡ 32) }
    ensures { s.new ≡ v.now }
{
    for k in 0..32 {
        s[k] = v[k];
    }
}
