// Standard input, read into a lent buffer. What is read is the operating system's to say: no contract can, and this one
// says only that the count lies within the buffer.
#![tactic(auto)]

ghost use Rattle.std.specs.Io.{ReadsAtMost};

use std::io::{self, Read};

// Reads until the buffer is full or the input ends, and answers how many bytes were read.
pub fn read_all(stdin: &mut impl Read, buf: &mut [u8]) -> io::Result<usize>
    ensures { ReadsAtMost result buf.new }
{
    let mut done = 0;
    // no index is counted: each read says how far the buffer is filled
    while done < buf.len() {
        let more = stdin.read(&mut buf[done..])?;
        if more == 0 {
            return Ok(done);
        }
        done += more;
    }
    Ok(done)
}
