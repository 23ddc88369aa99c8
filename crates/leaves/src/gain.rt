// Gains.
use crate::{case, number};
use gains::Refusal;

// The gain of an index, or the index of the nearest one.
pub fn number(kind: u8, case: &[u8]) -> u64 {
    match kind {
        b'c' => value(gains::cg(case::short(case, 0))),
        b'p' => value(gains::pg(case::short(case, 0))),
        b'n' => u64::from(nearest::nearest_cg(case::signed(case))),
        _ => u64::from(nearest::nearest_pg(case::signed(case))),
    }
}

// A gain, or the refusal.
fn value(gain: Result<i32, Refusal>) -> u64 {
    match gain {
        Ok(v) => signed(v),
        Err(Refusal::TooLarge) => number::refused(2, 0),
    }
}

// A signed number: the first eight bytes of its text, dots after it, as one.
pub fn signed(x: i32) -> u64 {
    let mut room = [b'.'; 8];
    decimals::put_signed(&mut room, 0, x);
    u64::from(case::word(&room, 0)) + 4294967296 * u64::from(case::word(&room, 2))
}
