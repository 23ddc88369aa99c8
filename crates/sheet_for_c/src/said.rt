// What a call answers, and its line.
use std::io::{self, Write};

#[derive(Clone, Copy)]
pub enum Said {
    Entered(i32),
    Recording(i32, usize, usize, usize, usize, usize),
    Held(i32, u32),
    Total(u64),
    Entries(u32),
    Book(u64),
    Cleared,
    Nothing,
}

// Prints the line of an answer.
pub fn say(out: &mut impl Write, answer: Said) -> io::Result<()> {
    match answer {
        Said::Entered(result) => {
            say_entered(out, result)?;
            writeln!(out)
        }
        Said::Recording(result, unit, number, place, size, cause) => {
            say_entered(out, result)?;
            writeln!(out, " told {unit} {number} {place} {size} {cause}")
        }
        Said::Held(result, count) => say_held(out, result, count),
        Said::Total(total) => writeln!(out, "total {total}"),
        Said::Entries(entries) => writeln!(out, "entries {entries}"),
        Said::Book(number) => writeln!(out, "book {number}"),
        Said::Cleared => writeln!(out, "cleared"),
        Said::Nothing => Ok(()),
    }
}

// What entering comes to, an entry or a recording.
fn say_entered(out: &mut impl Write, res: i32) -> io::Result<()> {
    match res {
        0 => write!(out, "entered"),
        1 => write!(out, "already held"),
        _ => write!(out, "refused {}", number_of(res)),
    }
}

// The refusal that a result is.
fn number_of(res: i32) -> u64 {
    match res {
        -1 => 1,
        -8 => 8,
        -9 => 9,
        -10 => 10,
        -11 => 11,
        -13 => 13,
        -14 => 14,
        _ => 0,
    }
}

// A held key has 1 and its count. The number that is lent is 9 before, and is shown where the key is not held.
fn say_held(out: &mut impl Write, res: i32, count: u32) -> io::Result<()> {
    match (res, count) {
        (1, _) => writeln!(out, "held {count}"),
        (0, 9) => writeln!(out, "not held"),
        _ => Ok(()),
    }
}
