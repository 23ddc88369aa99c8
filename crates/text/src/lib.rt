// Bytes and words laid into a lent buffer, one after the other. Each put answers the position after what it laid, held at
// the buffer's end. What has no room is left out, and no other byte changes.
#![tactic(auto)]

ghost use Rattle.std.specs.Prelude.{◌≡◌, [], ◌∷◌, min};
ghost use Rattle.text.specs.Laid.{laid, after};

// Lays one byte.
pub fn put_byte(out: &mut [u8], at: usize, b: u8) -> usize
    ensures value { result ≡ after out.old at (b ∷ []) }
    ensures out_after { out.new ≡ laid out.old at (b ∷ []) }
{
    let long = out.len();
    if at < long {
        out[at] = b;
        return at + 1;
    }
    long
}

// Lays a word.
pub fn put_word(out: &mut [u8], at: usize, word: &[u8]) -> usize
    ensures value { result ≡ after out.old at word.now }
    ensures out_after { out.new ≡ laid out.old at word.now }
{
    let long = out.len();
    if long <= at {
        return long;
    }
    let size = least(word.len(), long - at);
    // not by `copy_from_slice`: DECISIONS, "What the archive asks the C library for"
    for i in 0..size {
        out[at + i] = word[i];
    }
    at + size
}

// The lesser of two numbers.
pub fn least(a: usize, b: usize) -> usize
    ensures { result ≡ min a b }
{
    a.min(b)
}
