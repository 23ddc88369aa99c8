// A call: how many bytes its numbers have, and what it answers.
use crate::said::Said;
use crate::words;
use tally::{Entry, RecordingRefusal};

// How many bytes stand behind the byte of a call's kind; of no kind more than any input has.
pub fn size(kind: u8, rest: &[u8]) -> usize {
    match kind {
        b'e' => 12,
        b'r' => recording_size(rest),
        b'h' => 8,
        b't' | b'm' => 4,
        b'n' | b'c' | b'd' => 0,
        b'w' => 16,
        _ => 262145,
    }
}

// A count, a length, and as many bytes.
fn recording_size(rest: &[u8]) -> usize {
    if rest.len() < 8 {
        return 8;
    }
    8 + word(rest, 4) as usize
}

// What a call answers.
pub fn make(book: &mut [u32; tally::WORDS], kind: u8, numbers: &[u8]) -> Said {
    match kind {
        b'e' => Said::Entering(entering::enter(book, entry(numbers)).map_err(
            RecordingRefusal::NotEntered,
        )),
        b'r' => recording(book, numbers),
        b'h' => Said::Held(asking::ask(book, word(numbers, 0), word(numbers, 4))),
        b't' => Said::Total(tally::total(book, word(numbers, 0))),
        b'n' => Said::Entries(tally::entries(book)),
        b'd' => Said::Book(words::as_one(book)),
        b'w' => {
            words::lay(
                book,
                word(numbers, 0),
                word(numbers, 4),
                word(numbers, 8),
                word(numbers, 12),
            );
            Said::Nothing
        }
        _ => {
            tally::clear(book);
            Said::Cleared
        }
    }
}

// Enters the recording of a call.
fn recording(book: &mut [u32; tally::WORDS], numbers: &[u8]) -> Said {
    let bytes = numbers.get(8..).unwrap_or(&[]);
    Said::Entering(entering::enter_recording(book, bytes, word(numbers, 0)))
}

// The entry of a call.
fn entry(numbers: &[u8]) -> Entry {
    Entry {
        unit: word(numbers, 0),
        number: word(numbers, 4),
        count: word(numbers, 8),
    }
}

// Four bytes from a place on as a number, the lowest first; 0 where they are not all there.
pub fn word(s: &[u8], at: usize) -> u32 {
    match s.get(at..).and_then(|rest| rest.first_chunk()) {
        Some(four) => u32::from_le_bytes(*four),
        None => 0,
    }
}
