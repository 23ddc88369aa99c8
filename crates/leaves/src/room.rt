// Text laid into a small buffer.
use crate::case;

// The position after what was laid, and what the buffer of four bytes holds, dots before.
pub fn number(kind: u8, case: &[u8]) -> u64 {
    let mut room = [b'.'; 4];
    let end = laid_in(kind, case, &mut room);
    4294967296 * (end % 65536) as u64 + case::word(&room, 0) as u64
}

// Lays into the first bytes, as many as the case says.
fn laid_in(kind: u8, case: &[u8], room: &mut [u8]) -> usize {
    let long = case::short(case, 0) as usize;
    if room.len() < long {
        return 0;
    }
    laid(kind, case, &mut room[..long])
}

// Lays a byte, the case itself as a word, or a number, at a position.
fn laid(kind: u8, case: &[u8], out: &mut [u8]) -> usize {
    let at = case::word(case, 1) as usize;
    let n = case::word(case, 3);
    match kind {
        b'b' => text::put_byte(out, at, (n % 256) as u8),
        b'w' => text::put_word(out, at, case),
        _ => decimals::put_number(out, at, n as u64),
    }
}
