// The voice blocks of a recording, by their number, and where the frames in them stand, one after the other.
#![tactic(auto)]

ghost use Rattle.std.specs.Prelude.{◌≡◌, get_or};
ghost use Rattle.blocks.specs.Frames.{voice_size, spans_from, nowhere, span_of, voice_block_of, bytes_on, found_at};

use blocks::{Block, Found, Span};

// The payload of the k-th voice block, counted from 0, as that part of the bytes; the empty part where there is none.
pub fn voice_block(s: &[u8], k: usize) -> &[u8]
    ensures result_value { result.now ≡ voice_block_of s.now k }
    ensures ref_ptr_value { result.ref_ptr ≡ bytes_on s.entry.ref_ptr (span_of s.now k).from }
{
    let span = voice_span(s, k);
    let from = span.from;
    let to = span.to;
    &s[from..to]
}

// Where the payload of the k-th voice block stands; from 0 to 0 where there is none, as `NoSuchBlock` and the interface for C have it.
pub fn voice_span(s: &[u8], k: usize) -> Span
    ensures { result ≡ span_of s.now k }
{
    let walked = walk::walk_through(s);
    match walked.ending {
        Err(_) => Span { from: 0, to: 0 },
        Ok(()) => span_from(s, walked.walk.voices, k),
    }
}

// The same of the voice blocks from a place on.
fn span_from(s: &[u8], voices: usize, k: usize) -> Span
    ensures { result ≡ get_or (spans_from s.now voices) k nowhere }
{
    let mut at = voices;
    let mut before = k;
    // A `for` over the blocks before the k-th would ask twice whether a block stands there, in it and after it.
    loop {
        let size = voice_size(s, at);
        if size == 0 {
            return Span { from: 0, to: 0 };
        }
        let from = at + 6;
        let to = from + size;
        if before == 0 {
            return Span { from, to };
        }
        before -= 1;
        at = to;
    }
}

// The size of the payload of the voice block at a place; 0 where there is none.
fn voice_size(s: &[u8], at: usize) -> usize
    ensures { result ≡ voice_size s.now at }
{
    match blocks::block_at(s, at) {
        Ok(Block::Head(_)) => 0,
        Ok(Block::Voice(size)) => size,
        Ok(Block::End(_)) => 0,
        Err(_) => 0,
    }
}

// The next frame from a place on, where `left` bytes of a voice block are left; with none left, the first of the voice block there.
pub fn find(s: &[u8], at: usize, left: usize) -> Option<Found>
    ensures { result ≡ found_at s.now at left }
{
    if left == 0 {
        let size = voice_size(s, at);
        if size == 0 {
            return None;
        }
        return Some(Found {
            first: at + 6,
            rest: size - 18,
        });
    }
    if left < 18 || s.len() < 18 || s.len() - 18 < at {
        return None;
    }
    Some(Found {
        first: at,
        rest: left - 18,
    })
}
