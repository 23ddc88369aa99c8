// Makes the excitation of the subframes that stand on standard input, by the function for C, and prints what each answers and leaves.
// outside/CASES.md says how a case is laid out and what is printed of it.
#![tactic(auto)]

mod case;

use output::Pieces;
use std::io::{self, Read, Write};

fn main(rt: HostRuntime) {
    let _ = all(&mut rt.stdin(), &mut Pieces { out: rt.stdout() });
}

// Case after case, of 604 bytes each. Nothing says that the input ends, so there are as many turns as no input uses up.
fn all(stdin: &mut impl Read, out: &mut impl Write) -> io::Result<()> {
    let mut given = [0u8; 604];
    for _ in 0..u64::MAX {
        if input::read_all(stdin, &mut given)? < 604 {
            break;
        }
        answer(out, &given)?;
    }
    Ok(())
}

// The case in a room of 62 elements.
fn answer(out: &mut impl Write, given: &[u8]) -> io::Result<()> {
    let mut room = [7i32; 62];
    run(out, given, &mut room)
}

// Makes the excitation of a case in as many elements of the room as it says, and prints its line.
fn run(out: &mut impl Write, given: &[u8], room: &mut [i32]) -> io::Result<()> {
    let long = usize::from(case::half(given, 602)).min(room.len());
    let mut past = case::register(given);
    let result = made(given, &mut past, &mut room[..long]);
    told(out, result, room, &past)
}

// The excitation of a case, made once and so many times more, each from the register that was left.
fn made(given: &[u8], past: &mut [i32; 147], part: &mut [i32]) -> i32 {
    let times = case::word(given, 0);
    let delay = case::word(given, 592);
    let pg = case::half(given, 596);
    let ci = case::half(given, 598);
    let cg = case::half(given, 600);
    let mut result = player::oatlantern_excite(past, delay, pg, ci, cg, part);
    for _ in 0..times {
        result = player::oatlantern_excite(past, delay, pg, ci, cg, part);
    }
    result
}

// The line of a case: the result, the room, and the register.
fn told(out: &mut impl Write, res: i32, room: &[i32], past: &[i32; 147]) -> io::Result<()> {
    let mut line = [0; 4096];
    let number = decimals::put_signed(&mut line, 0, res);
    let buffer = decimals::put_list(&mut line, number, room);
    let after = decimals::put_list(&mut line, buffer, past);
    let end = text::put_byte(&mut line, after, b'\n');
    out.write_all(&line[..end])
}
