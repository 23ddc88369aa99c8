// The functions of recordings and values at places that no recording leads to.
use crate::{corrections, say};
use frame::Reading;
use passes::{Counts, Pass};
use record::Record;
use std::io::{self, Write};
use values::{Outcome, State, Values};

// Frame k of a recording: what correction did in it, and its values.
pub fn frame(out: &mut impl Write, s: &[u8], k: usize) -> io::Result<()> {
    let hearing = recording::frame_heard(s, k);
    corrections::told(out, hearing.reading.correction)?;
    heard(out, hearing.values)
}

// The outcome, the mark, the delays and the state after.
fn heard(out: &mut impl Write, values: Values) -> io::Result<()> {
    told(out, values.outcome)?;
    say::number(out, values.mark)?;
    say::numbers(out, &values.delays)?;
    kept(out, values.state)
}

// The refusal's number or 0, and the field that is told, or 65536 where there was nothing to hear.
fn told(out: &mut impl Write, outcome: Outcome) -> io::Result<()> {
    write!(out, "{} ", outcome.refusal_number())?;
    match outcome {
        Outcome::Heard | Outcome::Expansion => Ok(()),
        Outcome::Nothing => say::number(out, 65536),
        Outcome::TooLarge(field) => say::number(out, field),
    }
}

// What a state keeps.
fn kept(out: &mut impl Write, state: State) -> io::Result<()> {
    if state.hz.is_some() {
        say::number(out, 1)?;
    }
    say::numbers(out, &state.hz.unwrap_or([0; 10]))?;
    match state.last {
        Some(sy) => write!(out, "{sy} "),
        None => Ok(()),
    }
}

// The next frame from any place, with any number of bytes left: its first byte and how many come after it, or nothing.
pub fn find(out: &mut impl Write, s: &[u8], n: usize) -> io::Result<()> {
    match voices::find(s, n % 256, n / 256) {
        Some(found) => write!(out, "{} {} ", found.first, found.rest),
        None => Ok(()),
    }
}

// The next frame of any pass: where the pass is then, its counts and its state.
pub fn next(out: &mut impl Write, s: &[u8], n: usize) -> io::Result<()> {
    let q = n / 8192 % 8;
    let state = any_state(q);
    let counts = Counts {
        repaired: 3,
        breaks: 5,
    };
    let pass = Pass {
        at: n % 256,
        left: n / 256 % 32,
        frames: (q * 11001) as u32,
        counts,
        state,
    };
    let after = steps::next(s, pass).pass;
    passed(out, after)?;
    kept(out, after.state)
}

// A fresh state, or one that no recording leads to: LSPs without a last SY, a last SY without LSPs, one that no frame has.
fn any_state(q: usize) -> State {
    let hz = Some([300u16; 10]);
    match q {
        2 => State { hz, last: None },
        3 => State {
            hz: None,
            last: Some(0),
        },
        4 => State { hz, last: Some(1) },
        5 => State { hz, last: Some(7) },
        _ => State::fresh(),
    }
}

// The place, the bytes left and the counts.
fn passed(out: &mut impl Write, pass: Pass) -> io::Result<()> {
    write!(out, "{} {} {} ", pass.at, pass.left, pass.frames)?;
    write!(out, "{} {} ", pass.counts.repaired, pass.counts.breaks)
}

// The values of a frame's record with one index or more set to the number, by the length of what is given, after the
// state that the record itself leaves.
pub fn values(out: &mut impl Write, s: &[u8], n: usize) -> io::Result<()> {
    let reading = reader::read(s).unwrap_or(Reading::nothing());
    let indices = reading.indices;
    let first = decoder::values_of(indices, State::fresh());
    let second = decoder::values_of(altered(indices, n), first.state);
    heard(out, second)
}

// A record with an index changed: n / 8 for the index that n % 8 names.
fn altered(mut r: Record, n: usize) -> Record {
    let x = (n / 8 % 8192) as u16;
    match n % 8 {
        1 => r.lsp[9] = x,
        2 => r.subframes[4] = x,
        3 => r.sp = x,
        4 => r.sy = x,
        5 => {
            r.sp = 1;
            r.sy = x;
        }
        _ => {}
    }
    r
}
