// The work of the program `typed`: a rule as a planner types it in, the text of its table out, or the line of a refusal.
// A word becomes a place by `as`, and a place a word: there is no `From` between `u32` and `usize`.
#![tactic(auto)]

ghost use Rattle.lister.specs.Listing.{Listed};
ghost use Rattle.typist.specs.TableText.{typed_text};

// Writes the table text of a typed rule to the front of out. Answers how many bytes it is: never more than 1,024 lines.
pub fn write_table(text: &[u8], out: &mut [u8; 33792]) -> usize
    ensures { Listed (typed_text text.now) out.old out.new result }
{
    let mut words = [0u32; 4096];
    match rule::read_rule(text, &mut words) {
        Ok(n) => lister::list_frames(&words[..n as usize], out),
        Err(refusal) => lister::refused(refusal.reason.number(), refusal.place, out),
    }
}
