// Numbers in decimal, as words. A space begins a number, and a minus makes it negative. A number with a star is how many words more there
// are: each goes on from the word four before it as that went on from the word four before it.

// Room for the words of a table and of the code behind it.
pub(crate) const ROOM: usize = 8200;

pub(crate) type Words = [u32; ROOM];

// The words on their way: how many there are, and whether the last is negative. (The sign may come before there is a word, so it is no part of one.)
#[derive(Drop)]
struct Laying<'a> {
    words: &'a mut Words,
    end: usize,
    minus: bool,
}

// The word with one digit more, modulo 2 ^ 32.
fn append(word: u32, digit: u8, minus: bool) -> u32 {
    let tens = word.wrapping_mul(10);
    let digit = u32::from(digit);
    if minus {
        tens.wrapping_sub(digit)
    } else {
        tens.wrapping_add(digit)
    }
}

// The number that follows a and b.
fn following(a: u32, b: u32) -> u32 {
    b.wrapping_add(b.wrapping_sub(a))
}

impl Laying<'_> {
    // One word more, where there is room.
    fn push(&mut self, word: u32) {
        if self.end < ROOM {
            self.words[self.end] = word;
            self.end += 1;
        }
    }

    fn digit(&mut self, d: u8) {
        if 0 < self.end && self.end <= ROOM {
            let last = self.end - 1;
            self.words[last] = append(self.words[last], d, self.minus);
        }
    }

    // The last number is how many words follow in its place.
    fn star(&mut self) {
        if 0 < self.end && self.end <= ROOM {
            self.end -= 1;
            for _ in 0..self.words[self.end] {
                self.step();
            }
        }
    }

    // One word more, which goes on from those before it.
    fn step(&mut self) {
        if 8 <= self.end && self.end <= ROOM {
            self.push(following(self.words[self.end - 8], self.words[self.end - 4]));
        }
    }

    fn byte(&mut self, b: u8) {
        match b {
            b' ' => {
                self.push(0);
                self.minus = false;
            }
            b'-' => self.minus = true,
            b'*' => {
                self.star();
                self.minus = false;
            }
            b'0'..=b'9' => self.digit(b - b'0'),
            _ => {}
        }
    }
}

// Lays the numbers of a line behind the first n words. Answers how many they are then.
pub(crate) fn lay(line: &[u8], words: &mut Words, n: usize) -> usize {
    let mut laying = Laying {
        words,
        end: n,
        minus: false,
    };
    for b in line {
        laying.byte(*b);
    }
    laying.end
}
