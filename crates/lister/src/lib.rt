// The listing program's work: table text in, the text of its code out, or the line of a refusal.
// A word becomes a place by `as`, and a place a word: there is no `From` between `u32` and `usize`.
#![tactic(auto)]

ghost use Rattle.std.specs.Prelude.{[], ◌∷◌};
ghost use Rattle.rules.specs.Text.{text_of};
ghost use Rattle.lister.specs.Listing.{listing_of, listing, Frames, Listed};

use rules::WIDTH;

// The bytes of a line: eight digits a word, and the newline.
const LINE: usize = 8 * WIDTH + 1;

// Writes the line of a refusal to the front of out, by its number, whatever that is, and its place. Answers how many bytes it is.
pub fn refused(number: u32, place: u32, out: &mut [u8; 33792]) -> usize
    ensures { Listed (text_of 2 (number ∷ place ∷ [])) out.old out.new result }
{
    let pair = [number, place];
    let _ = writing::write_pairs(&pair, out);
    17
}

// Writes the text of whole frames, four words a line, to the front of out. Answers how many bytes it is.
pub fn list_frames(words: &[u32], out: &mut [u8; 33792]) -> usize
    requires { Frames words.now }
    ensures { Listed (text_of 4 words.now) out.old out.new result }
{
    let _ = writing::write_text(words, out);
    LINE * (words.len() / WIDTH)
}

// The listing of a table. An instruction is four words, as a frame is.
fn list_table(words: &[u32], out: &mut [u8; 33792]) -> usize
    ensures { Listed (listing_of words.now) out.old out.new result }
{
    let mut code = [0u32; WIDTH * 1024];
    match compiler::compile(words, 1, &mut code) {
        Ok(made) => list_frames(&code[..WIDTH * (made.instructions as usize)], out),
        Err(refusal) => refused(refusal.reason.number(), refusal.place, out),
    }
}

// Writes the listing of the input to the front of out. Answers how many bytes it is. A listing is never longer than 1,024 lines.
pub fn list(input: &[u8], out: &mut [u8; 33792]) -> usize
    ensures { Listed (listing input.now) out.old out.new result }
{
    let mut words = [0u32; 4096];
    match reading::read_text(input, &mut words) {
        Ok(n) => list_table(&words[..n as usize], out),
        Err(refusal) => refused(refusal.reason.number(), refusal.place, out),
    }
}
