// A line: words and numbers, one space apart, laid into a room of its own and written where it ends.
use lines::Line;
use std::io::{self, Write};

// The room, and where what is laid in it ends.
pub struct Row {
    bytes: [u8; 1024],
    end: usize,
}

impl Row {
    // A line with nothing in it.
    pub fn new() -> Row {
        Row {
            bytes: [0; 1024],
            end: 0,
        }
    }

    // A word.
    pub fn word(&mut self, word: &[u8]) {
        self.end = text::put_word(&mut self.bytes, self.end, word);
    }

    // A number.
    pub fn number(&mut self, n: impl Into<u64>) {
        let next = text::put_byte(&mut self.bytes, self.end, b' ');
        self.end = decimals::put_number(&mut self.bytes, next, n.into());
    }

    // A signed number.
    pub fn signed(&mut self, x: i32) {
        let next = text::put_byte(&mut self.bytes, self.end, b' ');
        self.end = decimals::put_signed(&mut self.bytes, next, x);
    }

    // A word and a number.
    pub fn told(&mut self, word: &[u8], n: impl Into<u64>) {
        self.word(word);
        self.number(n);
    }

    // Numbers of one size.
    pub fn numbers<N: Copy + Into<u64>>(&mut self, xs: &[N]) {
        for x in xs {
            self.number(*x);
        }
    }

    // Writes the line as far as it was laid, with a newline.
    pub fn write(self, out: &mut impl Write) -> io::Result<()> {
        let Row { mut bytes, end } = self;
        let next = text::put_byte(&mut bytes, end, b'\n');
        out.write_all(&bytes[..next])
    }
}

// Writes a line of the listing.
pub fn write_listed(out: &mut impl Write, line: Line) -> io::Result<()> {
    let mut bytes = [0; 1024];
    let end = lines::put(&mut bytes, 0, line);
    out.write_all(&bytes[..end])
}
