// A call: how many bytes its numbers have, and what it answers.
use crate::said::Said;
use crate::words;

// How many bytes stand behind the byte of a call's kind; of no kind more than any input has.
pub fn size(kind: u8, rest: &[u8]) -> usize {
    match kind {
        b'e' => 12,
        b'r' => recording_size(rest),
        b'h' => 8,
        b't' | b'm' => 4,
        b'n' | b'c' | b'd' => 0,
        b'w' => 16,
        _ => 262145,
    }
}

// A count, a length, and as many bytes.
fn recording_size(rest: &[u8]) -> usize {
    if rest.len() < 8 {
        return 8;
    }
    8 + word(rest, 4) as usize
}

// What a call answers.
pub fn make(book: &mut [u32; tally::WORDS], kind: u8, numbers: &[u8]) -> Said {
    match kind {
        b'e' => Said::Entered(ledger::oatlantern_tally_enter(
            book,
            word(numbers, 0),
            word(numbers, 4),
            word(numbers, 8),
        )),
        b'r' => recording(book, numbers),
        b'h' => held(book, word(numbers, 0), word(numbers, 4)),
        b't' => Said::Total(ledger::oatlantern_tally_total(book, word(numbers, 0))),
        b'n' => Said::Entries(ledger::oatlantern_tally_entries(book)),
        b'd' => Said::Book(words::as_one(book)),
        b'w' => {
            words::lay(
                book,
                word(numbers, 0),
                word(numbers, 4),
                word(numbers, 8),
                word(numbers, 12),
            );
            Said::Nothing
        }
        _ => {
            tally::clear(book);
            Said::Cleared
        }
    }
}

// Enters the recording of a call.
fn recording(book: &mut [u32; tally::WORDS], numbers: &[u8]) -> Said {
    let bytes = numbers.get(8..).unwrap_or(&[]);
    let mut told = [9usize; 5];
    let result = ledger::oatlantern_tally_enter_recording(book, bytes, word(numbers, 0), &mut told);
    Said::Recording(result, told[0], told[1], told[2], told[3], told[4])
}

// Asks for a key.
fn held(book: &[u32; tally::WORDS], unit: u32, number: u32) -> Said {
    let mut count = [9u32; 1];
    let result = ledger::oatlantern_tally_held(book, unit, number, &mut count);
    Said::Held(result, count[0])
}

// Four bytes from a place on as a number, the lowest first; 0 where they are not all there.
pub fn word(s: &[u8], at: usize) -> u32 {
    match s.get(at..).and_then(|rest| rest.first_chunk()) {
        Some(four) => u32::from_le_bytes(*four),
        None => 0,
    }
}
