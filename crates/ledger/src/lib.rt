// The tally book for C, as include/oatlantern.h declares it. A book is lent as it stands in `tally`: 12,289 words.
#![tactic(auto)]

ghost use Rattle.std.specs.Prelude.{◌≡◌};
ghost use Rattle.verdicts.specs.Verdicts.{recording_told};
ghost use Rattle.tally.specs.Tally.{holding_in, total_in};
ghost use Rattle.tally.specs.Book.{entries_in, entries_of, tallied, book_then};
ghost use Rattle.tally.specs.Entering.{entering_of, book_after_recording};
ghost use Rattle.ledger.specs.Results.{entry_with, enter_result, entering_result, held_result, count_left};

use tally::{Entry, RecordingRefusal, Refusal, Tallied};

// Enters an entry: 0 entered, 1 already held, or minus a refusal.
pub fn oatlantern_tally_enter(
    book: &mut [u32; tally::WORDS],
    unit: u32,
    number: u32,
    count: u32,
) -> i32
    ensures value { result ≡ enter_result (tallied book.old (entry_with unit number count)) }
    ensures book_after { book.new ≡ book_then book.old (entry_with unit number count) }
{
    result(entering::enter(
        book,
        Entry {
            unit,
            number,
            count,
        },
    ))
}

// What entering comes to as a number.
fn result(tallied: Result<Tallied, Refusal>) -> i32
    ensures { result ≡ enter_result tallied }
{
    match tallied {
        Ok(Tallied::Entered) => 0,
        Ok(Tallied::AlreadyHeld) => 1,
        Err(refusal) => verdicts::minus(refusal.refusal_number()),
    }
}

// Enters a recording with the count that was spoken in it, and tells what its verdict tells.
pub fn oatlantern_tally_enter_recording(
    book: &mut [u32; tally::WORDS],
    recording: &[u8],
    count: u32,
    told: &mut [usize; 5],
) -> i32
    ensures value { result ≡ entering_result (entering_of book.old recording.now count) }
    ensures book_after { book.new ≡ book_after_recording book.old recording.now count }
    ensures told_after { told.new ≡ recording_told recording.now }
{
    let entering = entering::enter_recording(book, recording, count);
    let verdict = verdicts::tell(recording, told);
    match entering {
        Ok(tallied) => result(Ok(tallied)),
        Err(RecordingRefusal::NotEntered(refusal)) => result(Err(refusal)),
        Err(RecordingRefusal::Unsound(_)) => verdict,
    }
}

// Whether a key is held: 1 and the count, or 0.
pub fn oatlantern_tally_held(
    book: &[u32; tally::WORDS],
    unit: u32,
    number: u32,
    count: &mut [u32; 1],
) -> i32
    ensures value { result ≡ held_result (holding_in (entries_of book.now) unit number) }
    ensures count_after { count.new ≡ count_left (holding_in (entries_of book.now) unit number) count.old }
{
    match asking::ask(book, unit, number) {
        Some(held) => {
            *count = [held];
            1
        }
        None => 0,
    }
}

// The total of a unit.
pub fn oatlantern_tally_total(book: &[u32; tally::WORDS], unit: u32) -> u64
    ensures { result ≡ total_in (entries_of book.now) unit }
{
    tally::total(book, unit)
}

// How many entries a book holds.
pub fn oatlantern_tally_entries(book: &[u32; tally::WORDS]) -> u32
    ensures { result ≡ entries_in book.now }
{
    tally::entries(book)
}
