// The tally book, for the pace sheet: which recordings were counted, each once, and with which spoken count.
// A book is 12,289 words that the caller lends: how many entries it holds, then three columns of 4,096, the numbers, the
// units and the counts. Any words are a book, and a book whose first word is 0 is empty.
// Here is what a book and an entry are, and what is asked of a book as a whole; `asking` tells what is held under a key,
// and `entering` enters entries and recordings.
#![tactic(auto)]

ghost use Rattle.std.specs.Prelude.{◌≡◌, ◌≤◌};
ghost use Rattle.tally.specs.Tally.{numbered, total_in};
ghost use Rattle.tally.specs.Book.{entries_in, entries_of, emptied};
ghost use Rattle.tally.specs.declared.RecordingRefusal.TheVariants.{Unsound, NotEntered};

use blocks::Cause;

// How many words a book has, and how many rows.
pub const WORDS: usize = 12289;

pub const ROWS: usize = 4096;

// Where its columns begin.
pub const NUMBERS: usize = 1;

pub const UNITS: usize = 4097;

pub const COUNTS: usize = 8193;

// What is entered: the unit and the number of a recording, which are its key, and the count that was spoken.
#[derive(Clone, Copy)]
pub struct Entry {
    pub unit: u32,
    pub number: u32,
    pub count: u32,
}

// What entering comes to where it is not refused: entered, or already held with the same count.
#[derive(Clone, Copy, Debug, PartialEq, Eq)]
pub enum Tallied {
    Entered,
    AlreadyHeld,
}

// Why entering is refused: the key is held with another count, or the book is full and the key is new.
#[derive(Clone, Copy, Debug, PartialEq, Eq)]
pub enum Refusal {
    OtherCount,
    Full,
}

// Why entering a recording is refused: the recording is, or else its entry.
#[derive(Clone, Copy, Debug, PartialEq, Eq)]
pub enum RecordingRefusal {
    Unsound(Cause),
    NotEntered(Refusal),
}

impl From<Cause> for RecordingRefusal {
    ghost from_gives = { λ cause given. given ≡ Unsound cause };

    fn from(cause: Cause) -> RecordingRefusal {
        RecordingRefusal::Unsound(cause)
    }
}

impl From<Refusal> for RecordingRefusal {
    ghost from_gives = { λ refusal given. given ≡ NotEntered refusal };

    fn from(refusal: Refusal) -> RecordingRefusal {
        RecordingRefusal::NotEntered(refusal)
    }
}

impl Refusal {
    // The number of the refusal.
    pub fn refusal_number(self) -> u32
        ensures { result ≡ numbered self }
    {
        match self {
            Refusal::OtherCount => 13,
            Refusal::Full => 14,
        }
    }
}

// Makes any book empty.
pub fn clear(book: &mut [u32; WORDS])
    ensures { book.new ≡ emptied book.old }
{
    book[0] = 0;
}

// How many entries a book holds.
pub fn entries(book: &[u32; WORDS]) -> u32
    ensures { result ≡ entries_in book.now }
{
    book[0].min(ROWS as u32)
}

// The total for a unit.
pub fn total(book: &[u32; WORDS], unit: u32) -> u64
    ensures { result ≡ total_in (entries_of book.now) unit }
{
    let last = entries(book) as usize;
    let mut sum: u64 = 0;
    for row in 0..last {
        if book[UNITS + row] == unit {
            sum += u64::from(book[COUNTS + row]);
        }
    }
    sum
}
