// Both ends of a recording, its head and its end block, laid as bytes into a lent buffer. Each put answers the position after what it
// laid, as those of `text` do.
#![tactic(auto)]

ghost use Rattle.std.specs.Prelude.{◌≡◌};
ghost use Rattle.text.specs.Laid.{laid, after};
ghost use Rattle.blocks.specs.Made.{head_block, end_block};

use blocks::Heading;

// Lays a head at the start.
pub fn put_head(out: &mut [u8], heading: Heading) -> usize
    ensures value { result ≡ after out.old 0 (head_block heading) }
    ensures out_after { out.new ≡ laid out.old 0 (head_block heading) }
{
    let [a, b, c, d] = heading.unit.to_le_bytes();
    let [e, f, g, h] = heading.number.to_le_bytes();
    let bytes = [8, 0, 0, 0, 1, 0, a, b, c, d, e, f, g, h];
    text::put_word(out, 0, &bytes)
}

// Lays an end at a place.
pub fn put_end(out: &mut [u8], at: usize, frames: u32) -> usize
    ensures value { result ≡ after out.old at (end_block frames) }
    ensures out_after { out.new ≡ laid out.old at (end_block frames) }
{
    let [a, b, c, d] = frames.to_le_bytes();
    let bytes = [4, 0, 0, 0, 3, 0, a, b, c, d];
    text::put_word(out, at, &bytes)
}
