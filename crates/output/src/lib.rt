// A test program's standard output, piece by piece: one that is refused is passed over, and the next is tried. What becomes of a piece is
// the operating system's to say: no contract can, and this one says only that a refusal ends no program.
#![tactic(auto)]

ghost use Rattle.std.specs.Prelude.{IsOk};

use std::io::{self, Write};

#[derive(Drop)]
pub struct Pieces<W> {
    pub out: W,
}

impl<W: Write> Write for Pieces<W> {
    fn write(&mut self, part: &[u8]) -> io::Result<usize> {
        self.out.write(part)
    }

    fn flush(&mut self) -> io::Result<()> {
        self.out.flush()
    }

    // Writes a piece, as far as it is taken.
    fn write_all(&mut self, piece: &[u8]) -> io::Result<()>
        ensures goes_on { IsOk result }
    {
        let _ = self.out.write_all(piece);
        Ok(())
    }
}
