// Prints the excitation of each subframe of one recording from standard input. outside/CASES.md has the lines.
#![tactic(auto)]

mod frames;
mod line;

use std::env::{Env, FillError};
use std::io::{self, Write};

// The program takes no argument: with one it says how it is used, and reads nothing.
fn main(rt: HostRuntime) {
    if !matches!(rt.arg(1, &mut []), Err(FillError::NotPresent)) {
        let _ = rt
            .stderr()
            .write_all(b"usage: oatlantern-excite <recording\n");
        return;
    }
    excite_input(&rt);
}

// A recording has at most 65,536 bytes: one byte more is too long, however many follow it.
fn excite_input(rt: &HostRuntime) {
    let mut recording = [0u8; 65537];
    let Ok(n) = input::read_all(&mut rt.stdin(), &mut recording) else {
        let _ = rt
            .stderr()
            .write_all(b"oatlantern-excite: standard input cannot be read\n");
        return;
    };
    if excite(&mut rt.stdout(), &recording[..n]).is_err() {
        let _ = rt
            .stderr()
            .write_all(b"oatlantern-excite: standard output cannot be written\n");
    }
}

// Prints any bytes as a recording. The one line of a recording that is refused is that of the listing.
fn excite(out: &mut impl Write, s: &[u8]) -> io::Result<()> {
    let walked = walk::walk_through(s);
    match walked.ending {
        Err(cause) => line::refused(out, cause),
        Ok(()) => {
            frames::all(out, s, walked.walk.frames)?;
            Ok(())
        }
    }
}
