// Runs the leaf functions on the cases that stand on standard input and prints a number for the answer to each; or, for
// a benchmark, goes through them many times and prints the sum alone. outside/CASES.md says how a case is laid out and
// what its number is.
#![tactic(auto)]

mod case;
mod code;
mod delay;
mod gain;
mod lsps;
mod number;
mod room;

ghost use Rattle.std.specs.Prelude.{◌≤◌, length};

use output::Pieces;
use std::io::{self, Read, Write};

fn main(rt: HostRuntime) {
    let mut cases = [0u8; 65536];
    let n = read_what_comes(&mut rt.stdin(), &mut cases);
    let _ = run(&mut Pieces { out: rt.stdout() }, &cases[..n]);
}

// Reads until the buffer is full, the input ends or a read fails, and answers how many bytes came before that.
fn read_what_comes(stdin: &mut impl Read, buf: &mut [u8]) -> usize
    ensures { result ≤ length buf.new }
{
    let mut done = 0;
    // no index is counted: each read says how far the buffer is filled
    while done < buf.len() {
        let more = stdin.read(&mut buf[done..]).unwrap_or(0);
        if more == 0 {
            return done;
        }
        done += more;
    }
    done
}

// The first four bytes tell how many rounds more there are than one, and each case is printed where there are none. Last
// is the sum.
fn run(out: &mut impl Write, s: &[u8]) -> io::Result<()> {
    if 65536 < s.len() {
        return Ok(());
    }
    let more = case::word(s, 0);
    let mut sum = through(out, s, 0, more == 0)?;
    for _ in 0..more {
        sum = through(out, s, sum, false)?;
    }
    writeln!(out, "{sum}")
}

// Goes through the cases once: each has a kind, how many bytes follow, and those. Answers the sum with what they add to
// it.
fn through(out: &mut impl Write, s: &[u8], before: u64, printing: bool) -> io::Result<u64>
    requires { length s.now ≤ 65536 }
{
    let mut sum = before;
    let mut at = 4;
    while at < s.len() {
        let next = at + 1;
        if s.len() <= next {
            return Ok(sum);
        }
        let first = at + 2;
        let end = first + usize::from(s[next]);
        if s.len() < end {
            return Ok(sum);
        }
        let n = answered(s[at], &s[first..end]);
        if printing {
            writeln!(out, "{n}")?;
        }
        sum = sum.wrapping_add(n);
        at = end;
    }
    Ok(sum)
}

// The number for the answer to a case, by its kind.
fn answered(kind: u8, case: &[u8]) -> u64 {
    match kind {
        b'm' => delay::meant(case),
        b's' => delay::coded(case),
        b'l' => lsps::number(case),
        b'e' => code::number(case),
        b'g' => code::drawn(case),
        b'b' | b'w' | b'd' => room::number(kind, case),
        _ => gain::number(kind, case),
    }
}
