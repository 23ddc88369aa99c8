// What a tally book holds under a key: the row that has it, and the count in that row.
#![tactic(auto)]

ghost use Rattle.std.specs.Prelude.{◌≡◌};
ghost use Rattle.tally.specs.Tally.{holding_in};
ghost use Rattle.tally.specs.Book.{entries_of};
ghost use Rattle.tally.specs.Steps.{place_of};

// Which count a book holds under a key.
pub fn ask(book: &[u32; tally::WORDS], unit: u32, number: u32) -> Option<u32>
    ensures { result ≡ holding_in (entries_of book.now) unit number }
{
    let row = row_of(book, unit, number);
    let end = tally::entries(book) as usize;
    if row < end {
        Some(book[tally::COUNTS + row])
    } else {
        None
    }
}

// The first row with a key; the row after all entries where none has it. In a large book numbers differ more often than
// units, so they are compared first.
pub fn row_of(book: &[u32; tally::WORDS], unit: u32, number: u32) -> usize
    ensures { result ≡ place_of (entries_of book.now) unit number }
{
    let end = tally::entries(book) as usize;
    for row in 0..end {
        if book[tally::NUMBERS + row] == number && book[tally::UNITS + row] == unit {
            return row;
        }
    }
    end
}
