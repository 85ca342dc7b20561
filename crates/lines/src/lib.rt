// The line that a program prints, as bytes: a word, each number in decimal behind one space, and a newline. All are inner functions.
#![tactic(auto)]

ghost use Rattle.std.specs.Prelude.{◌≡◌, ℕ, ◌+◌, ◌*◌, ◌≤◌, ◌<◌, List, [], ◌++◌, length, take};
ghost use Rattle.lines.specs.Lines.{spaced, line, refusal_line};

use refusals::Refusal;
use std::marker::Model;

// Room for every line that a program prints: a word of 43 bytes and four numbers of 20 digits.
pub const LINE_SIZE: usize = 128;

// A line as far as it is written, in front of the rest of its room. Clauses see the bytes that are written. No String, which needs a heap, and no
// Display, which would hand standard output a line in pieces, each written at once: a line is written whole.
#[derive(Drop)]
pub struct Line<const SIZE: usize> {
    bytes: [u8; SIZE],
    end: usize,
}

impl<const SIZE: usize> Model for Line<SIZE> {
    ghost Value = { List ℕ };

    ghost view = { λ l. take l.end l.bytes };

    ghost invariant = { λ l. l.end ≤ SIZE };
}

impl<const SIZE: usize> Line<SIZE> {
    // The line of a word and numbers.
    #[tactic(auto, unfolding(crate::specs::Lines::line))]
    pub fn new(word: &[u8], numbers: &[usize]) -> Self
        requires { length word.now + 21 * length numbers.now < SIZE }
        ensures { result ≡ line word.now numbers.now }
    {
        let mut line = Line {
            bytes: [0; SIZE],
            end: 0,
        };
        line.push(word);
        for number in numbers {
            line.push_number(*number);
        }
        line.push(b"\n");
        line
    }

    // Writes bytes behind those that are written.
    fn push(&mut self, bytes: &[u8])
        requires { length self.old + length bytes.now ≤ SIZE }
        ensures { self.new ≡ self.old ++ bytes.now }
    {
        let room: &mut [u8] = &mut self.bytes;
        let end = self.end + bytes.len();
        room[self.end..end].copy_from_slice(bytes);
        self.end = end;
    }

    // Writes a space and a number, of 20 digits at most. It is cast, since std has no `From` of `usize` for `u64`.
    fn push_number(&mut self, n: usize)
        requires { length self.old + 21 ≤ SIZE }
        ensures written { self.new ≡ self.old ++ spaced n }
        ensures within { length self.new ≤ length self.old + 21 }
    {
        let mut digits = [0; 20];
        let size = io::decimal(n as u64, &mut digits);
        self.push(b" ");
        self.push(&digits[..size]);
    }

    // The bytes that are written.
    pub fn as_bytes(&self) -> &[u8]
        ensures { result.now ≡ self.now }
    {
        &self.bytes[..self.end]
    }
}

// The line of a refusal.
#[tactic(auto, unfolding(crate::specs::Lines::refusal_line))]
impl From<Refusal> for Line<LINE_SIZE> {
    ghost from_gives = { λ refusal line. line ≡ refusal_line refusal };

    fn from(refusal: Refusal) -> Self {
        Line::new(b"refused", &[usize::from(refusal.number), refusal.spot])
    }
}
