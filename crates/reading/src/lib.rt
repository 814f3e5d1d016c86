// Hexadecimal text read into words, over the number w of words in a frame: a pass over the lines that looks for a fault, then one that writes the words.
// A word becomes a place by `as`, and a place a word: there is no `From` between `u32` and `usize`.
#![tactic(auto)]

ghost use Rattle.std.specs.Prelude.{◌≡◌, true, ◌+◌, ◌*◌, ◌<◌, ◌≤◌, length, take, MatchOption};
ghost use Rattle.std.proofs.lemmas.List.Edits.{sets};
ghost use Rattle.rules.specs.Text.{is_digit, number_of, words_of_text};
ghost use Rattle.rules.specs.Answer.{ended};
ghost use Rattle.reading.specs.Reading.{reading};
ghost use Rattle.reading.specs.inside.Parts.{is_line, IsGood, FirstFault, HasDigits, words_of_line, CanRead};

use rules::{Reason, Refusal};

// By `|`: one `matches!` over both ranges measures 9 % more instructions.
#[tactic(auto, unfolding(rules::specs::Text::is_digit))]
fn is_digit(b: u8) -> bool
    ensures { result ≡ is_digit b }
{
    b.is_ascii_digit() | matches!(b, b'a'..=b'f')
}

// Digits and a newline. No byte is passed over early, as `all` would, so that many are looked at together.
fn is_line(line: &[u8], digits: usize) -> bool
    requires { digits < length line.now }
    ensures { result ≡ is_line line.now digits }
{
    let mut good = true;
    for b in &line[..digits] {
        good &= is_digit(*b);
    }
    good & (line[digits] == b'\n')
}

// The first line that is not as it must be.
fn first_fault(text: &[u8], w: usize) -> Option<usize>
    requires { w ≤ 8 }
    ensures { MatchOption result (IsGood w text.now) (λ k. FirstFault w text.now k) }
{
    let digits = 8 * w;
    for (k, line) in text.chunks(digits + 1).enumerate() {
        if 1024 <= k || line.len() <= digits || !is_line(line, digits) {
            return Some(k);
        }
    }
    None
}

// The word that eight digits write: each lane becomes its digit's value, then two lanes at a time become one.
fn word(b: &[u8]) -> u32
    requires { HasDigits b.now 8 }
    ensures { result ≡ number_of 0 (take 8 b.now) }
{
    // eight bytes as lanes of one number, the first highest
    let x = u64::from_be_bytes([b[0], b[1], b[2], b[3], b[4], b[5], b[6], b[7]]);
    // the low four bits of each byte, and nine more for a letter, whose bit 64 is set
    let d = (x & 0x0f0f_0f0f_0f0f_0f0f) + 9 * ((x & 0x4040_4040_4040_4040) / 64);
    let e = (d + d / 16) & 0x00ff_00ff_00ff_00ff;
    let f = (e + e / 256) & 0x0000_ffff_0000_ffff;
    ((f + f / 65536) & 0xffff_ffff) as u32
}

// The words of one line.
fn read_line(line: &[u8], room: &mut [u32])
    requires { HasDigits line.now (8 * length room.old) }
    ensures { room.new ≡ words_of_line line.now (length room.old) }
{
    for (i, to) in room.iter_mut().enumerate() {
        *to = word(&line[8 * i..8 * i + 8]);
    }
}

// The words of all lines, to the front of room.
fn read_lines(text: &[u8], w: usize, room: &mut [u32])
    requires { CanRead w text.now (length room.old) }
    ensures { room.new ≡ sets room.old 0 (words_of_text w text.now) }
{
    for (k, line) in text.chunks_exact(8 * w + 1).enumerate() {
        read_line(line, &mut room[w * k..w * k + w]);
    }
}

// As a const parameter w would say no more: the length of a line, 8 * w + 1, can be no const argument.
fn read_frames(text: &[u8], w: usize, room: &mut [u32]) -> Result<u32, Refusal>
    requires { w ≤ 8 }
    ensures { ended result room.new ≡ reading w text.now room.old }
{
    if let Some(k) = first_fault(text, w) {
        return Err(Reason::Text.at(k as u32));
    }
    let n = (text.len() + 8 * w) / (8 * w + 1);
    if room.len() < w * n {
        return Err(Reason::TextRoom.at(0));
    }
    read_lines(text, w, room);
    Ok((w * n) as u32)
}

// Reads text of four words a line. Answers how many words it wrote to room.
pub fn read_text(text: &[u8], room: &mut [u32]) -> Result<u32, Refusal>
    ensures { ended result room.new ≡ reading 4 text.now room.old }
{
    read_frames(text, 4, room)
}
