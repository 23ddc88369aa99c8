// The words of a book: laid straight into it, and told as one number.

// Lays words from a place on, up to another or to the book's end: a first number, and each next one by a step more.
pub fn lay(book: &mut [u32; tally::WORDS], from: u32, to: u32, first: u32, step: u32) {
    let end = (to as usize).min(tally::WORDS);
    let mut number = first;
    for at in from as usize..end {
        book[at] = number;
        number = number.wrapping_add(step);
    }
}

// All words: from the first on, 31 times as much plus the next one, modulo 2 to the 58th.
pub fn as_one(book: &[u32; tally::WORDS]) -> u64 {
    let mut sum = 0;
    for word in book {
        sum = one_more(sum, *word);
    }
    sum
}

// A step of it.
fn one_more(sum: u64, word: u32) -> u64 {
    (31 * (sum % 288230376151711744) + u64::from(word)) % 288230376151711744
}
