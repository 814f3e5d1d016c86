// A token is taken: the frames that are complete are closed, nodes are made, and frames are opened. The text goes whole, with a place in it, since
// places are told in the whole text. What holds before a turn is said of text, place, stack and nodes together, and so is no type's.
ghost use Rattle.std.specs.Prelude.{◌≡◌, ◌<◌, ◌≤◌, MatchResult};
ghost use Rattle.rule.specs.inside.Turns.{Performing, Moved, AtEnd, LeftOpen, AtNext, NextIs, NoneNext, BeforeTurn, Turned, Stuck};

use crate::nodes::{Form, Nodes};
use tokens::moves::{Place, Stack, Standing};
use tokens::{moves, tables};

// ---- moves: an arm for each row of the table of moves in the specs of `tokens`, with its numbers. Those of a phrase that begins and those
// after a phrase are apart, so that the code of either is short. Moves, modes, frames and kinds have no names: they are the numbers of that
// table, which a reader sets beside the arms. For the same reason arms that differ in one number stay apart: one arm for them would need one
// more table, to look the number up.

// Where a phrase begins: frames are opened, and a leaf may be made.
fn begin(nodes: &mut Nodes, stack: &mut Stack, left: u32, p: Place, x: u32) -> Standing
    requires { Performing stack.old nodes.old left p × (p.act ≤ 19) }
    ensures { Moved stack.old nodes.old left p x stack.new nodes.new result }
{
    let top = p.top;
    let act = p.act;
    match act {
        2 => {
            nodes.make(Form::Leaf, 32, x);
            moves::stay(6, left, top)
        },
        3 => stack.one(top, 28, x, 1, left),
        4 => stack.one(top, 20, 0, 2, moves::down(left)),
        5 => stack.one(top, 21, 0, 2, moves::down(left)),
        6 => stack.one(top, 27, 0, 4, left),
        7 => {
            nodes.make(Form::Leaf, 16, x);
            moves::stay(6, left, top)
        },
        8 => {
            nodes.make(Form::Leaf, 17, x);
            moves::stay(6, left, top)
        },
        9 => {
            nodes.make(Form::Leaf, 1, x);
            stack.two(top, 26, 0, 27, 6, left)
        },
        10 => {
            nodes.make(Form::Leaf, 2, x);
            stack.two(top, 26, 0, 27, 6, left)
        },
        11 => stack.one(top, 22, 0, 2, moves::down(left)),
        12 => {
            stack.two(top, 26, 0, 27, 4, left);
            stack.two(top + 2, 24, 0, 27, 4, moves::down(left))
        }
        13 => stack.two(top, 26, 0, 27, 5, moves::down(left)),
        14 => stack.one(top, 25, 0, 3, left),
        15 => {
            nodes.make(Form::Leaf, 1, x);
            moves::stay(6, left, top)
        },
        16 => {
            nodes.make(Form::Leaf, 2, x);
            moves::stay(6, left, top)
        },
        17 => stack.two(top, 24, 0, 27, 4, moves::down(left)),
        18 => moves::stay(5, moves::down(left), top),
        19 => stack.one(top, 23, 0, 2, left),
        _ => moves::stay(0, moves::down(left), top),
    }
}

// After a phrase, whose frames are closed: the innermost frame goes on, or it is complete too and makes its node.
fn go_on(nodes: &mut Nodes, stack: &mut Stack, left: u32, p: Place, x: u32) -> Standing
    requires { Performing stack.old nodes.old left p × (1 < p.act → 20 ≤ p.act) }
    ensures { Moved stack.old nodes.old left p x stack.new nodes.new result }
{
    let top = p.top;
    let act = p.act;
    match act {
        20 => stack.one(top, 15, 0, 2, left),
        21 => stack.one(top, 30, x, 4, left),
        22 => stack.one(top, 31, x, 4, left),
        23 => stack.two(moves::lower(top), 17, 0, 19, 0, left),
        24 => {
            nodes.make(Form::Three, 35, x);
            moves::stay(6, left + 1, moves::lower(top))
        },
        25 => {
            nodes.make(Form::Two, 36, x);
            moves::stay(6, left + 1, moves::lower(top))
        },
        26 => {
            stack.count_statement(top);
            moves::stay(0, left, top)
        }
        27 => stack.two(moves::lower(top), 13, 0, 19, 0, left),
        28 => stack.two(moves::lower(top), 14, 0, 19, 0, left),
        29 => moves::stay(6, left + 1, moves::lower(top)),
        30 => stack.two(moves::lower(top), 16, 0, 27, 4, left),
        31 => stack.two(moves::lower(top), 29, x, 27, 4, left),
        32 => stack.two(moves::lower(top), 18, 0, 27, 4, left),
        33 => {
            nodes.make(Form::Three, 8, x);
            moves::stay(6, left + 1, moves::lower(top))
        },
        _ => moves::stay(0, moves::down(left), top),
    }
}

// ---- a turn

// What follows a phrase: a token's move, or the end, at which all frames are closed.
#[derive(Clone, Copy)]
struct Next {
    end: usize,
    place: Place,
    number: u32,
}

// At the end of the text nothing may be left open: otherwise the text is stuck there.
fn next_at_end(at: usize, stack: &Stack, s: Standing) -> Result<Next, usize>
    requires { (s.top ≤ 1600) × (at < 18446744073709551615) }
    ensures { MatchResult result (AtEnd stack.now.tags s at) (LeftOpen stack.now.tags s at) }
{
    if s.mode != 6 {
        return Err(at);
    }
    let p = stack.locate(s, 29);
    let open = p.top != 0;
    if open {
        return Err(at);
    }
    Ok(Next {
        end: at + 1,
        place: Place { act: 0, top: 0 },
        number: 0,
    })
}

// An error is the place where the text is stuck, here and below.
fn next_in(text: &[u8], at: usize, stack: &Stack, s: Standing) -> Result<Next, usize>
    requires { AtNext text.now at s }
    ensures { MatchResult result (NextIs text.now at stack.now.tags s) (NoneNext text.now at stack.now.tags s) }
{
    if text.len() <= at {
        return next_at_end(at, stack, s);
    }
    let class = tables::class_of(text[at]);
    let t = tokens::token_following(text, at, class, stack, s)?;
    Ok(Next {
        end: t.end,
        place: t.place,
        number: t.number,
    })
}

// A phrase is at hand.
fn after_phrase(
    text: &[u8],
    at: usize,
    stack: &mut Stack,
    nodes: &mut Nodes,
    s: &mut Standing,
) -> Result<usize, usize>
    requires { BeforeTurn text.now at stack.old nodes.old s.old × (s.old.mode ≡ 6) }
    ensures { MatchResult result (Turned text.now at stack.new nodes.new s.new) (Stuck text.now) }
{
    let n = next_in(text, at, &*stack, *s)?;
    nodes.close_down(&*stack, s.top, n.place.top);
    *s = go_on(nodes, stack, s.left, n.place, n.number);
    Ok(n.end)
}

// A phrase is wanted. A number or a variable where only an operand may stand is taken at once.
fn before_phrase(
    text: &[u8],
    at: usize,
    stack: &mut Stack,
    nodes: &mut Nodes,
    s: &mut Standing,
) -> Result<usize, usize>
    requires { BeforeTurn text.now at stack.old nodes.old s.old × (s.old.mode ≡ 6 → ⊥) }
    ensures { MatchResult result (Turned text.now at stack.new nodes.new s.new) (Stuck text.now) }
{
    if text.len() <= at {
        return Err(at);
    }
    let class = tables::class_of(text[at]);
    if s.mode == 4 {
        if let Some(o) = tokens::operand(text, at, class) {
            if !tables::word_goes_on(text, o.end) {
                nodes.make(Form::Leaf, o.kind - 26, o.value);
                *s = moves::stay(6, s.left, s.top);
                return Ok(o.end);
            }
        }
    }
    let t = tokens::token_wanted(text, at, class, &*stack, *s)?;
    *s = begin(nodes, stack, s.left, t.place, t.number);
    Ok(t.end)
}

// What stands at `at`, where no blank does, is taken. Answers where it ends.
// Stack, nodes and shape go one by one: with one struct of the three a rule takes 16 % more instructions, a deep one 11 %, 221,887 and 492,716
// for 190,847 and 442,235; with the shape beside a struct of the other two 14 % and 4 %.
pub(crate) fn advance(
    text: &[u8],
    at: usize,
    stack: &mut Stack,
    nodes: &mut Nodes,
    s: &mut Standing,
) -> Result<usize, usize>
    requires { BeforeTurn text.now at stack.old nodes.old s.old }
    ensures { MatchResult result (Turned text.now at stack.new nodes.new s.new) (Stuck text.now) }
{
    if s.mode == 6 {
        after_phrase(text, at, stack, nodes, s)
    } else {
        before_phrase(text, at, stack, nodes, s)
    }
}
