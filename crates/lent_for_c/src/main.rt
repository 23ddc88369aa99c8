// Runs salvaging and listing for C over a case on standard input, and shows all that they were lent: of each the numbers, and then
// every byte of the buffer. outside/CASES.md has the form of a case.
// `lent` reads its case by the same text: in a library each function of it would need a contract that determines it and
// wrong programs of its own, which the rules ask of a library and not of a test program.
#![tactic(auto)]

ghost use Rattle.std.specs.Prelude.{◌≤◌};

use output::Pieces;
use std::io::{self, Write};

fn main(rt: HostRuntime) {
    let mut case = [0u8; 65539];
    let Ok(n) = input::read_all(&mut rt.stdin(), &mut case) else {
        return;
    };
    let mut buffer = filled();
    let _ = run(&mut Pieces { out: rt.stdout() }, &case[..n], &mut buffer);
}

// A buffer of 131,072 bytes, of which a case is lent the first.
fn filled() -> [u8; 131072] {
    [170; 131072]
}

// Salvages the recording of a case into as many bytes as it says, and lists it into twice as many, which are filled anew.
fn run(out: &mut impl Write, case: &[u8], buffer: &mut [u8]) -> io::Result<()> {
    let room = room_of(case);
    let recording = case.get(2..).unwrap_or(&[]);
    let first = room.min(buffer.len());
    salvaged(out, recording, &mut buffer[..first])?;
    let mut other = filled();
    listed_in(out, recording, 2 * room, &mut other)
}

// The same with a buffer of any length.
fn listed_in(
    out: &mut impl Write,
    recording: &[u8],
    room: usize,
    buffer: &mut [u8],
) -> io::Result<()> {
    let long = room.min(buffer.len());
    listed(out, recording, &mut buffer[..long])
}

// Salvages a recording into a buffer, and shows it.
fn salvaged(out: &mut impl Write, recording: &[u8], buffer: &mut [u8]) -> io::Result<()> {
    let mut changes = [9; 5];
    let result = mender::oatlantern_salvage(recording, buffer, &mut changes);
    out.write_all(b"salvage")?;
    say_result(out, result)?;
    say_five(out, &changes)?;
    out.write_all(b"\n")?;
    out.write_all(buffer)
}

// Lists a recording into a buffer, and shows it.
fn listed(out: &mut impl Write, recording: &[u8], buffer: &mut [u8]) -> io::Result<()> {
    let mut end = [9; 1];
    let mut told = [9; 5];
    let result = lister::oatlantern_list(recording, buffer, &mut end, &mut told);
    out.write_all(b"list")?;
    say_result(out, result)?;
    write!(out, " {}", end[0])?;
    say_five(out, &told)?;
    out.write_all(b"\n")?;
    out.write_all(buffer)
}

// A result behind a space, as one piece.
fn say_result(out: &mut impl Write, res: i32) -> io::Result<()> {
    let mut places = [b' '; 16];
    let end = decimals::put_signed(&mut places, 1, res);
    out.write_all(&places[..end])
}

// Numbers, each behind a space.
fn say_five(out: &mut impl Write, numbers: &[usize; 5]) -> io::Result<()> {
    for number in numbers {
        write!(out, " {number}")?;
    }
    Ok(())
}

// The length of the buffer for what is salvaged: the number in the first two bytes, 0 standing for 65,536.
fn room_of(case: &[u8]) -> usize
    ensures { result ≤ 65536 }
{
    let room = usize::from(u16::from_le_bytes([byte(case, 0), byte(case, 1)]));
    if room == 0 { 65536 } else { room }
}

// A byte of a case; one that is not there is 0.
fn byte(case: &[u8], at: usize) -> u8 {
    case.get(at).copied().unwrap_or(0)
}
