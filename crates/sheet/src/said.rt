// What a call answers, and its line.
use lines::Line;
use std::io::{self, Write};
use tally::{RecordingRefusal, Tallied};

#[derive(Clone, Copy)]
pub enum Said {
    Entering(Result<Tallied, RecordingRefusal>),
    Held(Option<u32>),
    Total(u64),
    Entries(u32),
    Book(u64),
    Cleared,
    Nothing,
}

// Prints the line of an answer.
pub fn say(out: &mut impl Write, answer: Said) -> io::Result<()> {
    match answer {
        Said::Entering(entering) => say_entering(out, entering),
        Said::Held(Some(count)) => writeln!(out, "held {count}"),
        Said::Held(None) => writeln!(out, "not held"),
        Said::Total(total) => writeln!(out, "total {total}"),
        Said::Entries(entries) => writeln!(out, "entries {entries}"),
        Said::Book(number) => writeln!(out, "book {number}"),
        Said::Cleared => writeln!(out, "cleared"),
        Said::Nothing => Ok(()),
    }
}

// What entering comes to; a recording that is refused has its line of the listing.
fn say_entering(
    out: &mut impl Write,
    entering: Result<Tallied, RecordingRefusal>,
) -> io::Result<()> {
    match entering {
        Ok(Tallied::Entered) => writeln!(out, "entered"),
        Ok(Tallied::AlreadyHeld) => writeln!(out, "already held"),
        Err(RecordingRefusal::NotEntered(refusal)) => {
            writeln!(out, "refused {}", refusal.refusal_number())
        }
        Err(RecordingRefusal::Unsound(cause)) => {
            let mut line = [0; 64];
            let end = lines::put(&mut line, 0, Line::Refused(cause));
            out.write_all(&line[..end])
        }
    }
}
