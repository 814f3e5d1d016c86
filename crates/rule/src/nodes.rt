// Nodes written, children first. The nodes that no node names yet are on a stack: their numbers in one array, their depths in another.
// Numbers of nodes go into 16 bits by `as`: `try_from` would ask for what is proved.
ghost use Rattle.std.specs.Prelude.{◌≡◌, true, cond, ◌-◌, ◌<◌, ◌≤◌, length};
ghost use Rattle.tokens.specs.Flat.{arity};
ghost use Rattle.rule.specs.inside.Nodes.{first, second, third, below, form_is, Put, Writing, NodeWritten, Making, Made, Rowing};
ghost use Rattle.rule.specs.inside.Nodes.{RowMade, Closing, Closed};
ghost use Rattle.rule.specs.inside.Turns.{NoNodes, Lowering, Lowered};

use tokens::moves::Stack;

// What a node is made of: a number alone; one to three nodes; a number and a node.
#[derive(Clone, Copy)]
pub(crate) enum Form {
    Leaf,
    One,
    Two,
    Three,
    Numbered,
}

impl Form {
    // How many nodes it is made of.
    fn arity(self) -> usize
        ensures { result ≡ arity (form_is self) }
    {
        match self {
            Form::Leaf => 0,
            Form::One | Form::Numbered => 1,
            Form::Two => 2,
            Form::Three => 3,
        }
    }

    // The words behind its kind, over the number x and the nodes a, b and c.
    fn words(self, x: u32, a: u16, b: u16, c: u16) -> (u32, u32, u32)
        ensures { (result.0 ≡ first (form_is self) x a) × (result.1 ≡ second (form_is self) a b) × (result.2 ≡ third (form_is self) c) }
    {
        match self {
            Form::Leaf => (x, 0, 0),
            Form::One => (u32::from(a), 0, 0),
            Form::Two => (u32::from(a), u32::from(b), 0),
            Form::Three => (u32::from(a), u32::from(b), u32::from(c)),
            Form::Numbered => (x, u32::from(a), 0),
        }
    }

    // The depth below it, over nodes of depths a, b and c.
    fn depth_below(self, a: u16, b: u16, c: u16) -> u16
        ensures { result ≡ below (form_is self) a b c }
    {
        match self {
            Form::Leaf => 0,
            Form::One | Form::Numbered => a,
            Form::Two => a.max(b),
            Form::Three => a.max(b).max(c),
        }
    }
}

// All nodes: four words each, and how many there are, where 1,025 says that there are too many: a flag beside the count would be asked at each node. Those that no node names yet are the first
// `depth` of `roots` and `deep`. These are two arrays, and not one of pairs: a node takes three numbers of the one, and its depth three of the other.
#[derive(Drop)]
pub(crate) struct Nodes {
    pub words: [u32; 4096],
    pub roots: [u16; 1028],
    pub deep: [u16; 1028],
    pub depth: usize,
    pub count: usize,
}

fn put(words: &mut [u32; 4096], count: usize, a: u32, b: u32, c: u32, d: u32)
    requires { count < 1024 }
    ensures { Put words.old count a b c d words.new }
{
    let at = 4 * count;
    words[at..at + 4].copy_from_slice(&[a, b, c, d]);
}

// The number of a node that a node is made of. The last one is the last that was written: its number is not read back from the stack, where
// it has only just been stored.
fn root(last: bool, count: usize, stored: u16) -> u16
    requires { (last ≡ true → 0 < count) × (count ≤ 1024) }
    ensures { result ≡ cond last (count - 1) stored }
{
    if last { (count - 1) as u16 } else { stored }
}

impl Nodes {
    // No node is written yet.
    pub(crate) fn new() -> Self
        ensures { NoNodes result }
    {
        Nodes {
            words: [0; 4096],
            roots: [0; 1028],
            deep: [0; 1028],
            depth: 0,
            count: 0,
        }
    }

    // A node over those from `base` on, `n` of them.
    fn write(&mut self, base: usize, n: usize, form: Form, kind: u32, x: u32)
        requires { Writing self.old base n (form_is form) }
        ensures { NodeWritten self.old base (form_is form) kind x self.new }
    {
        let count = self.count;
        let a = root(n == 1, count, self.roots[base]);
        let b = root(n == 2, count, self.roots[base + 1]);
        let c = root(n == 3, count, self.roots[base + 2]);
        let (p, q, r) = form.words(x, a, b, c);
        put(&mut self.words, count, kind, p, q, r);
        let d = form.depth_below(self.deep[base], self.deep[base + 1], self.deep[base + 2]);
        self.roots[base] = count as u16;
        self.deep[base] = d + 1;
        self.depth = base + 1;
        self.count = count + 1;
    }

    // A node is made of the last ones, if it is not the 1,025th. Callers give a form that is known: then little is left of it.
    pub(crate) fn make(&mut self, form: Form, kind: u32, x: u32)
        requires { Making self.old (form_is form) }
        ensures { Made self.old (form_is form) kind x self.new }
    {
        let full = 1024 <= self.count;
        if full {
            self.count = 1025;
            return;
        }
        let n = form.arity();
        let base = self.depth - n;
        self.write(base, n, form, kind, x);
    }

    // The sequences of a row with k earlier statements: it groups to the right.
    fn make_row(&mut self, k: u32)
        requires { Rowing self.old k }
        ensures { RowMade self.old k self.new }
    {
        for _ in 0..k {
            self.make(Form::Two, 34, 0);
        }
    }

    // What a frame that is closed makes of the phrase at hand: an `and` and a `not` their nodes, a row its sequences, brackets nothing, an assign its
    // node; any other frame the node of the operator that is its number.
    fn close(&mut self, frame: u8, x: u32)
        requires { Closing self.old frame x }
        ensures { Closed self.old frame x self.new }
    {
        match frame {
            15 => self.make(Form::Two, 22, x),
            19 => self.make_row(x),
            25 => self.make(Form::One, 21, x),
            27 => {}
            28 => self.make(Form::Numbered, 33, x),
            _ => self.make(Form::Two, x, x),
        }
    }

    // The frames from `top` down to `to` are closed.
    pub(crate) fn close_down(&mut self, stack: &Stack, top: usize, to: usize)
        requires { Lowering stack.now self.old top to }
        ensures { Lowered stack.now self.old top to self.new }
    {
        for i in (to..top).rev() {
            self.close(stack.tags[i], stack.figures[i]);
        }
    }
}
