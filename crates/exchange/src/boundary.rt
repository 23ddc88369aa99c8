// Frames and records through the C boundary, with a buffer of any length up to sixty, which holds 170 everywhere
// before.
use crate::say;
use std::io::{self, Write};

// Reads a frame into a buffer of so many bytes: the result, and what the buffer holds.
pub fn read(out: &mut impl Write, frame: &[u8], long: usize) -> io::Result<()> {
    lent(
        out,
        long,
        |buffer| gateway::oatlantern_read_frame(frame, buffer),
    )
}

// Writes a record into a buffer of so many bytes: the same.
pub fn write(out: &mut impl Write, fields: &[u8], long: usize) -> io::Result<()> {
    lent(out, long, |buffer| {
        gateway::oatlantern_write_frame(fields, buffer)
    })
}

// Lends so many bytes, if there are as many: the result, and what all of them hold.
fn lent<F: FnOnce(&mut [u8]) -> i32>(out: &mut impl Write, long: usize, call: F) -> io::Result<()>
    requires { F.IsAlwaysCallable call }
{
    let mut buffer = [170u8; 60];
    if let Some(part) = buffer.get_mut(..long) {
        say::result(out, call(part))?;
    }
    say::numbers(out, &buffer)
}
