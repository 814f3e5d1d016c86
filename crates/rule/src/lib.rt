// Rules as planners type them (02, A4), read into their table. One loop goes over the bytes; what is open is kept in arrays.
// A word becomes a place by `as`, and a place a word: there is no `From` between `u32` and `usize`.
#![tactic(auto)]

mod nodes;
mod turns;

ghost use Rattle.std.specs.Prelude.{◌≡◌, ◌≤◌, length, take, MatchResult};
ghost use Rattle.rules.specs.Answer.{ended};
ghost use Rattle.rules.specs.Refusal.{refusal};
ghost use Rattle.grammar.specs.Typed.{told};
ghost use Rattle.grammar.specs.Spelling.{is_blank};
ghost use Rattle.rule.specs.ReadingRule.{reading_rule};
ghost use Rattle.rule.specs.inside.Turns.{Finished, Skipped, NoNodes, Reached, Refuses};

use nodes::Nodes;
use rules::{Reason, Refusal};
use tokens::moves::{Stack, Standing};

// The text is read: its nodes may be too many, or too deep.
fn finish(nodes: &Nodes) -> Result<usize, Refusal>
    ensures { Finished nodes.now result }
{
    if 1024 < nodes.count {
        return Err(Reason::TableLength.at(0));
    }
    if 256 < nodes.deep[0] {
        return Err(Reason::Depth.at(0));
    }
    Ok(nodes.count)
}

fn is_blank(b: u8) -> bool
    ensures { result ≡ is_blank b }
{
    (b == b' ') | (b == b'\n')
}

// The first place from `from` on where no blank stands. By `while`: with a `for` over the places a rule of many brackets takes 2 % more
// instructions, 448,218 for 439,943.
fn skip_blanks(text: &[u8], from: usize) -> usize
    ensures { Skipped text.now from result }
{
    let mut at = from;
    while at < text.len() && is_blank(text[at]) {
        at += 1;
    }
    at
}

// The refusal of a text that is stuck at a place, which is told in a word.
fn ungrammatical(place: usize) -> Refusal
    ensures { result ≡ refusal 17 (told place) }
{
    Reason::Grammar.at(u32::try_from(place).unwrap_or(u32::MAX))
}

// The text read into nodes: how many they are. The end of the text is a turn like its tokens, so that frames are closed in one place.
fn read(text: &[u8], nodes: &mut Nodes) -> Result<usize, Refusal>
    requires { NoNodes nodes.old }
    ensures { MatchResult result (Reached text.now nodes.new) (Refuses text.now) }
{
    let mut stack = Stack {
        tags: [19; 1600],
        figures: [0; 1600],
    };
    let mut s = Standing {
        mode: 0,
        left: 256,
        top: 1,
    };
    let mut at = skip_blanks(text, 0);
    // By `while`: how far a turn goes is the token's to say.
    while at <= text.len() {
        let end = turns::advance(text, at, &mut stack, &mut *nodes, &mut s).map_err(ungrammatical)?;
        at = skip_blanks(text, end);
    }
    finish(&*nodes)
}

// Reads a typed rule. Answers how many words of its table it wrote to room.
pub fn read_rule(text: &[u8], room: &mut [u32]) -> Result<u32, Refusal>
    ensures { ended result room.new ≡ reading_rule text.now room.old }
{
    let mut nodes = Nodes::new();
    let n = 4 * read(text, &mut nodes)?;
    if room.len() < n {
        return Err(Reason::TextRoom.at(0));
    }
    room[..n].copy_from_slice(&nodes.words[..n]);
    Ok(n as u32)
}
