// Prints what is heard of one recording from standard input: each frame with what was read in it and its values under
// the running state, and where the voice blocks stand. outside/CASES.md has the lines.
#![tactic(auto)]

mod frames;
mod line;

use line::Row;
use lines::Line;
use recording::Summary;
use std::env::{Env, FillError};
use std::io::{self, Write};

// The program takes no argument: with one it says how it is used, and reads nothing.
fn main(rt: HostRuntime) {
    if !matches!(rt.arg(1, &mut []), Err(FillError::NotPresent)) {
        let _ = rt
            .stderr()
            .write_all(b"usage: oatlantern-hear <recording\n");
        return;
    }
    hear_input(&rt);
}

// A recording has at most 65,536 bytes: one byte more is too long, however many follow it.
fn hear_input(rt: &HostRuntime) {
    let mut recording = [0u8; 65537];
    let Ok(n) = input::read_all(&mut rt.stdin(), &mut recording) else {
        let _ = rt
            .stderr()
            .write_all(b"oatlantern-hear: standard input cannot be read\n");
        return;
    };
    if hear(&mut rt.stdout(), &recording[..n]).is_err() {
        let _ = rt
            .stderr()
            .write_all(b"oatlantern-hear: standard output cannot be written\n");
    }
}

// Prints any bytes as a recording. Its first line and its last, and the one line of a recording that is refused, are those of the
// listing.
fn hear(out: &mut impl Write, s: &[u8]) -> io::Result<()> {
    match recording::judge(s) {
        Err(cause) => line::write_listed(out, Line::Refused(cause)),
        Ok(summary) => sound(out, s, summary),
    }
}

// The first line, the frames, the voice blocks and the last line.
fn sound(out: &mut impl Write, s: &[u8], summary: Summary) -> io::Result<()> {
    line::write_listed(out, Line::Head(summary.heading, summary.frames))?;
    frames::all(out, s, summary.frames)?;
    voices(out, s)?;
    line::write_listed(
        out,
        Line::Last(summary.counts.repaired, summary.counts.breaks),
    )
}

// A line for each voice block, and one past the last.
fn voices(out: &mut impl Write, s: &[u8]) -> io::Result<()> {
    for k in 0..65536 {
        let size = voices::voice_block(s, k).len();
        block(s, k, size).write(out)?;
        if size == 0 {
            break;
        }
    }
    Ok(())
}

// `block K AT LEN`.
fn block(s: &[u8], k: usize, size: usize) -> Row {
    let mut row = Row::new();
    row.told(b"block", k as u64);
    row.number(voices::voice_span(s, k).from as u64);
    row.number(size as u64);
    row
}
