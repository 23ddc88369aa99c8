// Runs salvaging over a case on standard input, and shows every byte of the lent buffer after it: what is told of the changes, and then
// the buffer. outside/CASES.md has the form of a case.
// `lent_for_c` reads its case by the same text: in a library each function of it would need a contract that determines it and
// wrong programs of its own, which the rules ask of a library and not of a test program.
#![tactic(auto)]

ghost use Rattle.std.specs.Prelude.{◌≤◌, length};

use kept::Unsalvaged;
use output::Pieces;
use salvage::Salvaged;
use std::io::{self, Write};

fn main(rt: HostRuntime) {
    let mut case = [0u8; 65539];
    let Ok(n) = input::read_all(&mut rt.stdin(), &mut case) else {
        return;
    };
    let mut buffer = filled();
    let _ = run(&mut Pieces { out: rt.stdout() }, &case[..n], &mut buffer);
}

// A buffer of 65,536 bytes, of which a case is lent the first.
fn filled() -> [u8; 65536] {
    [170; 65536]
}

// Salvages the recording of a case into as many bytes as it says.
fn run(out: &mut impl Write, case: &[u8], buffer: &mut [u8]) -> io::Result<()> {
    let room = room_of(case).min(buffer.len());
    let recording = case.get(2..).unwrap_or(&[]);
    lend(out, recording, &mut buffer[..room])
}

// Salvages a recording into a buffer, and shows it.
fn lend(out: &mut impl Write, recording: &[u8], buffer: &mut [u8]) -> io::Result<()> {
    let salvaged = restorer::salvage(recording, buffer);
    tell(out, salvaged)?;
    out.write_all(buffer)
}

// The length of the buffer: the number in the first two bytes, 0 standing for 65,536.
fn room_of(case: &[u8]) -> usize {
    let room = usize::from(u16::from_le_bytes([byte(case, 0), byte(case, 1)]));
    if room == 0 { 65536 } else { room }
}

// A byte of a case; one that is not there is 0.
fn byte(case: &[u8], at: usize) -> u8 {
    case.get(at).copied().unwrap_or(0)
}

// What is told of the changes.
fn tell(out: &mut impl Write, salvaged: Result<Salvaged, Unsalvaged>) -> io::Result<()> {
    let mut lines = [0; 128];
    let end = changes::put(&mut lines, 0, salvaged);
    out.write_all(&lines[..end])
}
