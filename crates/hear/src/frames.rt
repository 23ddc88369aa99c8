// The line of each frame.
use crate::line::Row;
use frame::{Correction, Reading};
use passes::Hearing;
use std::io::{self, Write};
use values::{Outcome, State, Values};

// The lines of so many frames, by a pass from a fresh state on.
pub fn all(out: &mut impl Write, s: &[u8], count: u32) -> io::Result<()> {
    let mut pass = passes::start(s, State::fresh());
    for k in 0..count {
        let step = steps::next(s, pass);
        one(k + 1, step.hearing).write(out)?;
        pass = step.pass;
    }
    Ok(())
}

// The line of a frame by its number.
fn one(k: u32, hearing: Hearing) -> Row {
    let mut row = Row::new();
    row.told(b"frame", k);
    read_in(&mut row, hearing.reading);
    heard(&mut row, hearing.values);
    if let Some(sy) = hearing.values.state.last {
        row.told(b" sy", sy);
    }
    row
}

// The 28 indices, the correction and the order mark.
fn read_in(row: &mut Row, reading: Reading) {
    row.numbers(&reading.indices.lsp);
    row.numbers(&reading.indices.subframes);
    row.number(reading.indices.sp);
    row.number(reading.indices.sy);
    corrected(row, reading.correction);
    row.told(b" mark", reading.mark as u64);
}

// The correction number and its letter, and for a data bit that was inverted the field and the bit.
fn corrected(row: &mut Row, correction: Correction) {
    row.told(b" number", parity::number_for(correction) as u64);
    match correction {
        Correction::Clean => row.word(b" c"),
        Correction::Parity(_) => row.word(b" p"),
        Correction::Data(f, i) => {
            row.told(b" d", f as u64);
            row.number(i as u64);
        }
    }
}

// The values, or the refusal.
fn heard(row: &mut Row, values: Values) {
    match values.outcome {
        Outcome::Heard => values_in(row, values),
        Outcome::Nothing => row.word(b" nothing"),
        outcome => row.told(b" refused", outcome.refusal_number()),
    }
}

// Gains, delays, averages and the Hz of the state after.
fn values_in(row: &mut Row, values: Values) {
    row.word(b" gains");
    for (cg, pg) in values.cg.iter().zip(&values.pg) {
        row.signed(*cg);
        row.signed(*pg);
    }
    row.word(b" delays");
    row.numbers(&values.delays);
    row.word(b" averages");
    row.numbers(&values.averages);
    row.word(b" state");
    row.numbers(&values.state.hz.unwrap_or([0; 10]));
}
