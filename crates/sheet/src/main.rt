// Makes the calls that stand on standard input on one tally book, which is empty at first, and prints what each
// answers. outside/CASES.md has the form of a call and its line.
// `sheet_for_c` reads its calls by the same text: in a library each function of it would need a contract that determines it and
// wrong programs of its own, which the rules ask of a library and not of a test program.
#![tactic(auto)]

mod call;
mod said;
mod words;

use output::Pieces;
use std::io::{self, Write};

fn main(rt: HostRuntime) {
    let mut calls = [0u8; 262144];
    let Ok(n) = input::read_all(&mut rt.stdin(), &mut calls) else {
        return;
    };
    let mut book = [0u32; tally::WORDS];
    let _ = run(&mut Pieces { out: rt.stdout() }, &calls[..n], &mut book);
}

// Makes call after call, to the end or to one that is cut or of no kind.
fn run(out: &mut impl Write, s: &[u8], book: &mut [u32; tally::WORDS]) -> io::Result<()> {
    let mut more = 0;
    let mut left = s;
    while let Some((kind, rest)) = left.split_first() {
        let Some((numbers, after)) = rest.split_at_checked(call::size(*kind, rest)) else {
            return Ok(());
        };
        if *kind == b'm' {
            more = call::word(numbers, 0);
        } else {
            repeat(out, book, *kind, numbers, more)?;
            more = 0;
        }
        left = after;
    }
    Ok(())
}

// Makes a call so many times more than once, and says what it answers last.
fn repeat(
    out: &mut impl Write,
    book: &mut [u32; tally::WORDS],
    kind: u8,
    numbers: &[u8],
    more: u32,
) -> io::Result<()> {
    for _ in 0..more {
        call::make(book, kind, numbers);
    }
    said::say(out, call::make(book, kind, numbers))
}
