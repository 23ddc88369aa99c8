// Entering into a tally book: an entry, or a recording with the count that was spoken in it, and each key once.
// What is refused or already held leaves every word of the book as it was.
#![tactic(auto)]

ghost use Rattle.std.specs.Prelude.{◌≡◌};
ghost use Rattle.tally.specs.Book.{entries_in, tallied, book_then};
ghost use Rattle.tally.specs.Steps.{tally_or_full, appended};
ghost use Rattle.tally.specs.Entering.{entry_of, entering_of, book_after_recording};

use blocks::Heading;
use tally::{Entry, RecordingRefusal, Refusal, Tallied};

// Enters an entry: a new key where there is room; else the book is as it was.
pub fn enter(book: &mut [u32; tally::WORDS], entry: Entry) -> Result<Tallied, Refusal>
    ensures value { result ≡ tallied book.old entry }
    ensures book_after { book.new ≡ book_then book.old entry }
{
    let unit = entry.unit;
    let number = entry.number;
    let row = asking::row_of(book, unit, number);
    let held = tally::entries(book) as usize;
    if row < held {
        let held_at = tally::COUNTS + row;
        if book[held_at] == entry.count {
            return Ok(Tallied::AlreadyHeld);
        }
        return Err(Refusal::OtherCount);
    }
    append(book, row, entry)
}

// Lays an entry into the row after those that a book holds, where there is one.
fn append(book: &mut [u32; tally::WORDS], row: usize, entry: Entry) -> Result<Tallied, Refusal>
    requires { row ≡ entries_in book.old }
    ensures value { result ≡ tally_or_full book.old }
    ensures book_after { book.new ≡ appended book.old entry }
{
    if row < tally::ROWS {
        book[tally::NUMBERS + row] = entry.number;
        book[tally::UNITS + row] = entry.unit;
        book[tally::COUNTS + row] = entry.count;
        book[0] = row as u32 + 1;
        return Ok(Tallied::Entered);
    }
    Err(Refusal::Full)
}

// Enters a recording with the count that was spoken in it: its own refusal first, and then as its unit and number are
// entered.
pub fn enter_recording(
    book: &mut [u32; tally::WORDS],
    s: &[u8],
    count: u32,
) -> Result<Tallied, RecordingRefusal>
    ensures value { result ≡ entering_of book.old s.now count }
    ensures book_after { book.new ≡ book_after_recording book.old s.now count }
{
    let walked = walk::walk_through(s);
    walked.ending?;
    let entry = entry_of(walked.walk.heading, count);
    Ok(enter(book, entry)?)
}

// The entry of a recording: what its head tells, and the count.
fn entry_of(heading: Heading, count: u32) -> Entry
    ensures { result ≡ entry_of heading count }
{
    Entry {
        unit: heading.unit,
        number: heading.number,
        count,
    }
}
