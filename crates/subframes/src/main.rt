// Makes the excitation of the subframes that stand on standard input, and prints what each answers and leaves.
// outside/CASES.md says how a case is laid out and what is printed of it.
#![tactic(auto)]

mod case;

use excitation::{Refusal, Register};
use output::Pieces;
use std::io::{self, Read, Write};

fn main(rt: HostRuntime) {
    let _ = all(&mut rt.stdin(), &mut Pieces { out: rt.stdout() });
}

// Case after case, of 604 bytes each. Nothing says that the input ends, so there are as many turns as no input uses up.
fn all(stdin: &mut impl Read, out: &mut impl Write) -> io::Result<()> {
    let mut given = [0u8; 604];
    for _ in 0..u64::MAX {
        if input::read_all(stdin, &mut given)? < 604 {
            break;
        }
        answer(out, &given)?;
    }
    Ok(())
}

// The case in a room of 62 elements.
fn answer(out: &mut impl Write, given: &[u8]) -> io::Result<()> {
    let mut room = [7i32; 62];
    run(out, given, &mut room)
}

// Makes the excitation of a case in as many elements of the room as it says, and prints its line.
fn run(out: &mut impl Write, given: &[u8], room: &mut [i32]) -> io::Result<()> {
    let long = usize::from(case::half(given, 602)).min(room.len());
    let mut register = case::register(given);
    let outcome = made(given, &mut register, &mut room[..long]);
    told(out, outcome, room, &register)
}

// The excitation of a case, made once and so many times more, each from the register that was left.
fn made(given: &[u8], register: &mut Register, part: &mut [i32]) -> Result<(), Refusal> {
    let times = case::word(given, 0);
    let delay = case::word(given, 592);
    let pg = case::half(given, 596);
    let ci = case::half(given, 598);
    let cg = case::half(given, 600);
    let mut outcome = exciter::excite(register, delay, pg, ci, cg, part);
    for _ in 0..times {
        outcome = exciter::excite(register, delay, pg, ci, cg, part);
    }
    outcome
}

// The line of a case: the refusal's number, the room, and the register.
fn told(
    out: &mut impl Write,
    outcome: Result<(), Refusal>,
    room: &[i32],
    register: &Register,
) -> io::Result<()> {
    let mut line = [0; 4096];
    let refusal = match outcome {
        Ok(()) => 0,
        Err(refusal) => refusal.refusal_number(),
    };
    let number = decimals::put_number(&mut line, 0, u64::from(refusal));
    let buffer = decimals::put_list(&mut line, number, room);
    let after = decimals::put_list(&mut line, buffer, &register.elements);
    let end = text::put_byte(&mut line, after, b'\n');
    out.write_all(&line[..end])
}
