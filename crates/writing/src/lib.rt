// Words written as hexadecimal text, over the number w of words in a frame (four, and two in the line of a refusal): two digits at a time, from a table.
// A word becomes a place by `as`, and a place a word: there is no `From` between `u32` and `usize`.
#![tactic(auto)]

ghost use Rattle.std.specs.Prelude.{◌≡◌, ◌+◌, ◌*◌, ◌<◌, ◌≤◌, length};
ghost use Rattle.std.proofs.lemmas.List.Edits.{sets};
ghost use Rattle.rules.specs.Text.{digits_of, line_length, text_of};
ghost use Rattle.rules.specs.Answer.{ended};
ghost use Rattle.writing.specs.Writing.{writing};
ghost use Rattle.writing.specs.inside.Parts.{pair_of, digits_of_words, line_of_words, CanWrite};

use rules::{Reason, Refusal};

// The two digits of each byte.
static PAIRS: [u8; 512] = *b"\
    000102030405060708090a0b0c0d0e0f\
    101112131415161718191a1b1c1d1e1f\
    202122232425262728292a2b2c2d2e2f\
    303132333435363738393a3b3c3d3e3f\
    404142434445464748494a4b4c4d4e4f\
    505152535455565758595a5b5c5d5e5f\
    606162636465666768696a6b6c6d6e6f\
    707172737475767778797a7b7c7d7e7f\
    808182838485868788898a8b8c8d8e8f\
    909192939495969798999a9b9c9d9e9f\
    a0a1a2a3a4a5a6a7a8a9aaabacadaeaf\
    b0b1b2b3b4b5b6b7b8b9babbbcbdbebf\
    c0c1c2c3c4c5c6c7c8c9cacbcccdcecf\
    d0d1d2d3d4d5d6d7d8d9dadbdcdddedf\
    e0e1e2e3e4e5e6e7e8e9eaebecedeeef\
    f0f1f2f3f4f5f6f7f8f9fafbfcfdfeff";

// The two digits of a byte.
fn pair(b: u8) -> [u8; 2]
    ensures { result ≡ pair_of b }
{
    let i = 2 * usize::from(b);
    [PAIRS[i], PAIRS[i + 1]]
}

// The eight digits of a word, the last two first: by `to_be_bytes`, the first two first, a writing measures 6 % more instructions.
fn put_word(word: u32, room: &mut [u8])
    requires { length room.old ≡ 8 }
    ensures { room.new ≡ digits_of 8 word }
{
    for (i, b) in word.to_le_bytes().iter().enumerate() {
        let [first, second] = pair(*b);
        room[6 - 2 * i] = first;
        room[7 - 2 * i] = second;
    }
}

// The digits of words.
fn put_words(words: &[u32], room: &mut [u8])
    requires { length room.old ≡ 8 * length words.now }
    ensures { room.new ≡ digits_of_words words.now }
{
    for (i, word) in words.iter().enumerate() {
        put_word(*word, &mut room[8 * i..8 * i + 8]);
    }
}

// One line.
fn write_line(words: &[u32], room: &mut [u8])
    requires { length room.old ≡ line_length (length words.now) }
    ensures { room.new ≡ line_of_words words.now }
{
    let digits = 8 * words.len();
    put_words(words, &mut room[..digits]);
    room[digits] = b'\n';
}

// The lines of all frames, to the front of room.
fn write_lines(words: &[u32], w: usize, room: &mut [u8])
    requires { CanWrite w words.now (length room.old) }
    ensures { room.new ≡ sets room.old 0 (text_of w words.now) }
{
    let long = 8 * w + 1;
    for (k, frame) in words.chunks_exact(w).enumerate() {
        write_line(frame, &mut room[long * k..long * k + long]);
    }
}

// As a const parameter w would say no more: the length of a line, 8 * w + 1, can be no const argument.
fn write_frames(words: &[u32], w: usize, room: &mut [u8]) -> Result<u32, Refusal>
    requires { (0 < w) × (w ≤ 8) }
    ensures { ended result room.new ≡ writing w words.now room.old }
{
    let n = words.len() / w;
    if 1024 < n {
        return Err(Reason::Text.at(1024));
    }
    if w * n < words.len() {
        return Err(Reason::Text.at(n as u32));
    }
    let long = (8 * w + 1) * n;
    if room.len() < long {
        return Err(Reason::TextRoom.at(0));
    }
    write_lines(words, w, room);
    Ok(long as u32)
}

// Writes words as text of four words a line. Answers how many bytes it wrote to room. This and `write_pairs` are two names over one function: docs
// know them apart, and C has this one alone.
pub fn write_text(words: &[u32], room: &mut [u8]) -> Result<u32, Refusal>
    ensures { ended result room.new ≡ writing 4 words.now room.old }
{
    write_frames(words, 4, room)
}

// Writes words as text of two words a line, as a listing tells a refusal.
pub fn write_pairs(words: &[u32], room: &mut [u8]) -> Result<u32, Refusal>
    ensures { ended result room.new ≡ writing 2 words.now room.old }
{
    write_frames(words, 2, room)
}
