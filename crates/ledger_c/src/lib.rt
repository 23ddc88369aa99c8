// The archive's part of `ledger`: the tally book under the names that include/oatlantern.h declares.
// Each function only calls the one of its name there.
#![tactic(auto)]

ghost use Rattle.std.specs.Prelude.{◌≡◌};
ghost use Rattle.verdicts.specs.Verdicts.{recording_told};
ghost use Rattle.tally.specs.Tally.{holding_in, total_in};
ghost use Rattle.tally.specs.Book.{entries_in, entries_of, tallied, book_then};
ghost use Rattle.tally.specs.Entering.{entering_of, book_after_recording};
ghost use Rattle.ledger.specs.Results.{entry_with, enter_result, entering_result, held_result, count_left};

// Enters an entry: 0 entered, 1 already held, or minus a refusal.
#[unsafe(no_mangle)]
pub extern "C" fn oatlantern_tally_enter(
    book: &mut [u32; tally::WORDS],
    unit: u32,
    number: u32,
    count: u32,
) -> i32
    ensures value { result ≡ enter_result (tallied book.old (entry_with unit number count)) }
    ensures book_after { book.new ≡ book_then book.old (entry_with unit number count) }
{
    ledger::oatlantern_tally_enter(book, unit, number, count)
}

// Enters a recording with the count that was spoken in it, and tells what its verdict tells.
#[unsafe(no_mangle)]
pub extern "C" fn oatlantern_tally_enter_recording(
    book: &mut [u32; tally::WORDS],
    recording: &[u8],
    count: u32,
    told: &mut [usize; 5],
) -> i32
    ensures value { result ≡ entering_result (entering_of book.old recording.now count) }
    ensures book_after { book.new ≡ book_after_recording book.old recording.now count }
    ensures told_after { told.new ≡ recording_told recording.now }
{
    ledger::oatlantern_tally_enter_recording(book, recording, count, told)
}

// Whether a key is held: 1 and the count, or 0.
#[unsafe(no_mangle)]
pub extern "C" fn oatlantern_tally_held(
    book: &[u32; tally::WORDS],
    unit: u32,
    number: u32,
    count: &mut [u32; 1],
) -> i32
    ensures value { result ≡ held_result (holding_in (entries_of book.now) unit number) }
    ensures count_after { count.new ≡ count_left (holding_in (entries_of book.now) unit number) count.old }
{
    ledger::oatlantern_tally_held(book, unit, number, count)
}

// The total of a unit.
#[unsafe(no_mangle)]
pub extern "C" fn oatlantern_tally_total(book: &[u32; tally::WORDS], unit: u32) -> u64
    ensures { result ≡ total_in (entries_of book.now) unit }
{
    ledger::oatlantern_tally_total(book, unit)
}

// How many entries a book holds.
#[unsafe(no_mangle)]
pub extern "C" fn oatlantern_tally_entries(book: &[u32; tally::WORDS]) -> u32
    ensures { result ≡ entries_in book.now }
{
    ledger::oatlantern_tally_entries(book)
}
