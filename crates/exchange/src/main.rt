// Runs functions of the C boundary, and the functions of recordings, values and corrections at places that no recording leads to,
// on the cases that stand on standard input, and prints what each answers. outside/CASES.md says how a case is laid out
// and what is printed of it.
#![tactic(auto)]

mod boundary;
mod corrections;
mod hearing;
mod places;
mod say;

use output::Pieces;
use std::io::{self, Read, Write};

fn main(rt: HostRuntime) {
    let _ = all(&mut rt.stdin(), &mut Pieces { out: rt.stdout() });
}

// Case after case, of 128 bytes each. Nothing says that the input ends, so there are as many turns as no input uses up.
fn all(stdin: &mut impl Read, out: &mut impl Write) -> io::Result<()> {
    let mut case = [0u8; 128];
    for _ in 0..u64::MAX {
        if input::read_all(stdin, &mut case)? < 128 {
            break;
        }
        answer(out, &case)?;
    }
    Ok(())
}

// The line of a case: its kind, how many bytes are given, a number, and the bytes.
fn answer(out: &mut impl Write, case: &[u8; 128]) -> io::Result<()> {
    given(out, case, case[0], case[1], pair(case[2], case[3]))?;
    writeln!(out)
}

// Two bytes as a number, the lower first.
fn pair(low: u8, high: u8) -> usize {
    u16::from_le_bytes([low, high]) as usize
}

// The same, with the bytes that are given.
fn given(out: &mut impl Write, case: &[u8], kind: u8, long: u8, n: usize) -> io::Result<()> {
    let end = 4 + long as usize;
    if case.len() < end {
        return Ok(());
    }
    let part = &case[4..end];
    match kind {
        b'r' => boundary::read(out, part, n),
        b'w' => boundary::write(out, part, n),
        b'k' => places::frame(out, part, n),
        b'c' => corrections::any(out, n),
        b'm' => corrections::mend(out, part, n),
        b'f' => places::find(out, part, n),
        b'p' => places::next(out, part, n),
        b'h' => hearing::hear(out, part),
        b'b' => hearing::block(out, part, n),
        _ => places::values(out, part, n),
    }
}
