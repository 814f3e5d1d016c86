// The machine that reads tokens, on numbers: the frames are in arrays. Which move is made stands in a table; what a move does stands in the
// code, for a number in the code need not be waited for.
ghost use Rattle.std.specs.Prelude.{◌≡◌, [], ◌∷◌, ◌≤◌};
ghost use Rattle.tokens.specs.Flat.{level};
ghost use Rattle.tokens.specs.Arrays.{RowIs, Sought, Located, Lower, Counted, Opened};

use crate::tables;

// Where a move is made, and which. A move stays a number: it is read in a table, where 0 is no move, and the end of the text asks for the
// place where there is none.
#[derive(Clone, Copy)]
pub struct Place {
    pub act: u32,
    pub top: usize,
}

// A shape whose frames are the first `top` of a stack. A mode stays a number: it is a row of the table. That `top` is within a stack is asked
// where it is read, and is no invariant: `stay` takes any.
#[derive(Clone, Copy)]
pub struct Standing {
    pub mode: u32,
    pub left: u32,
    pub top: usize,
}

// Frames, the outermost first: their numbers, and their figures beside them. They are two arrays, for in one of pairs each pair would hold
// three bytes more that say nothing: 4,800 bytes of the stack, of which a reader of rules has fewer left.
#[derive(Drop)]
pub struct Stack {
    pub tags: [u8; 1600],
    pub figures: [u32; 1600],
}

// A mode past the table has no row, with levels left or without, so the sum is made of small numbers only.
fn row_of(mode: u32, left: u32) -> u32
    ensures { RowIs mode left result }
{
    if (left == 0) & (mode < 1024) {
        mode + 7
    } else {
        mode
    }
}

impl Stack {
    // Frames are passed until one moves.
    fn seek(&self, top: usize, kind: u32) -> Place
        requires { top ≤ 1600 }
        ensures { Sought self.now.tags top kind result.act result.top }
    {
        for i in (0..top).rev() {
            let a = tables::act_of(u32::from(self.tags[i]), kind);
            if a != 1 {
                return Place { act: a, top: i + 1 };
            }
        }
        Place { act: 0, top: 0 }
    }

    // The move of a shape on a kind of token.
    pub fn locate(&self, s: Standing, kind: u32) -> Place
        requires { s.top ≤ 1600 }
        ensures { Located self.now.tags s kind result.act result.top }
    {
        if s.mode == 6 {
            self.seek(s.top, kind)
        } else {
            Place {
                act: tables::act_of(row_of(s.mode, s.left), kind),
                top: s.top,
            }
        }
    }

    // ---- a move is made

    // One statement more in the row that is open.
    pub fn count_statement(&mut self, top: usize)
        requires { top ≤ 1543 }
        ensures counted { Counted self.old.figures top 1 self.new.figures }
        ensures tags { self.new.tags ≡ self.old.tags }
    {
        if top == 0 {
            return;
        }
        self.figures[top - 1] = self.figures[top - 1].wrapping_add(1);
    }

    // The frame f is opened, with the number x.
    pub fn one(&mut self, base: usize, f: u8, x: u32, mode: u32, left: u32) -> Standing
        requires { base ≤ 1598 }
        ensures { Opened self.old.tags self.old.figures base (f ∷ []) x mode left self.new.tags self.new.figures result }
    {
        self.tags[base] = f;
        self.figures[base] = x;
        Standing {
            mode,
            left,
            top: base + 1,
        }
    }

    // The frame f is opened, with the number x, and in it the frame g.
    pub fn two(&mut self, base: usize, f: u8, x: u32, g: u8, mode: u32, left: u32) -> Standing
        requires { base ≤ 1598 }
        ensures { Opened self.old.tags self.old.figures base (g ∷ f ∷ []) x mode left self.new.tags self.new.figures result }
    {
        self.tags[base] = f;
        self.figures[base] = x;
        self.tags[base + 1] = g;
        self.figures[base + 1] = 0;
        Standing {
            mode,
            left,
            top: base + 2,
        }
    }
}

// No frame is opened.
pub fn stay(mode: u32, left: u32, top: usize) -> Standing
    ensures { (result.mode ≡ mode) × (result.left ≡ left) × (result.top ≡ top) }
{
    Standing { mode, left, top }
}

// The frame on top is closed.
pub fn lower(top: usize) -> usize
    ensures { Lower top 1 result }
{
    top.saturating_sub(1)
}

// One level is taken.
pub fn down(left: u32) -> u32
    ensures { result ≡ level 0 left }
{
    left.saturating_sub(1)
}
