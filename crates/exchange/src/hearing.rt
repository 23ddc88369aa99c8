// Records heard, and voice blocks found, by the functions for C.
use crate::{corrections, say};
use std::io::{self, Write};

// A record after a state of thirteen numbers, two bytes each: the result, and all that is lent.
pub fn hear(out: &mut impl Write, part: &[u8]) -> io::Result<()> {
    let mut sync = [pair(part, 0, 1), pair(part, 2, 3), pair(part, 4, 5)];
    let mut hz = kept(part);
    let start = part.len().min(26);
    heard(out, &part[start..], &mut sync, &mut hz)
}

// The ten LSPs of the state.
fn kept(part: &[u8]) -> [u16; 10] {
    let mut hz = [0u16; 10];
    for (k, lsp) in hz.iter_mut().enumerate() {
        *lsp = pair(part, 6 + 2 * k, 7 + 2 * k);
    }
    hz
}

// The same of its record and the state's numbers.
fn heard(
    out: &mut impl Write,
    record: &[u8],
    sync: &mut [u16; 3],
    hz: &mut [u16; 10],
) -> io::Result<()> {
    let mut cg = [77i32; 4];
    let mut pg = [77i32; 4];
    let mut delays = [77u16; 4];
    let mut averages = [77u32; 40];
    let result = hearer::oatlantern_hear_record(
        record,
        sync,
        hz,
        &mut cg,
        &mut pg,
        &mut delays,
        &mut averages,
    );
    say::result(out, result)?;
    say::numbers(out, sync)?;
    say::numbers(out, hz)?;
    say::results(out, &cg)?;
    say::results(out, &pg)?;
    say::numbers(out, &delays)?;
    say::numbers(out, &averages)
}

// A number of two bytes, at the places of its lower and its upper one; what is not there is 0.
fn pair(part: &[u8], low: usize, high: usize) -> u16 {
    u16::from_le_bytes([corrections::byte(part, low), corrections::byte(part, high)])
}

// Where voice block k stands.
pub fn block(out: &mut impl Write, recording: &[u8], k: usize) -> io::Result<()> {
    let mut span = [9usize; 2];
    hearer::oatlantern_voice_block(recording, k, &mut span);
    write!(out, "{} {} ", span[0], span[1])
}
