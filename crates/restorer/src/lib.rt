// Writes what can be kept of a damaged recording as a good one: its head, the frames that are kept in their blocks, and a fresh end.
// Each kept block stands where it stood, so the end block is written where the dropped bytes began.
#![tactic(auto)]

ghost use Rattle.std.specs.Prelude.{◌≡◌, ◌++◌, ◌≤◌, length};
ghost use Rattle.text.specs.Laid.{laid, after};
ghost use Rattle.blocks.specs.Walk.{longest, after_head};
ghost use Rattle.blocks.specs.Frames.{voices_from};
ghost use Rattle.blocks.specs.Made.{block, voice_blocks, end_block};
ghost use Rattle.kept.specs.Keeping.{frames_at, first_frames};
ghost use Rattle.kept.specs.Steps.{reach_of};
ghost use Rattle.salvage.specs.Salvaging.{salvage_of, buffer_of};
ghost use Rattle.salvage.specs.Steps.{bytes_before};

use kept::{Keep, Unsalvaged};
use salvage::Salvaged;

// Writes what can be kept of any bytes, with a fresh end, into a lent buffer of 65,536 bytes, and answers what it changed. A refusal
// writes nothing.
pub fn salvage(s: &[u8], out: &mut [u8]) -> Result<Salvaged, Unsalvaged>
    ensures value { result ≡ salvage_of s.now (length out.old) }
    ensures out_after { out.new ≡ buffer_of s.now out.old }
{
    let keep = kept::planned(s, out.len())?;
    let end = write(out, s, keep);
    Ok(salvage::answer(s.len(), keep.frames, end as u32, keep.sound))
}

// Lays the head, the frames kept in their blocks, and the end, and answers where the end block stands.
fn write(out: &mut [u8], s: &[u8], keep: Keep) -> usize
    requires s_len_bound { length s.now ≤ longest }
    requires rest_in_bounds { reach_of keep.at keep.rest ≤ length s.now }
    ensures value { result ≡ after out.old 0 (bytes_before s.now keep) }
    ensures out_after { out.new ≡ laid out.old 0 (bytes_before s.now keep ++ end_block keep.frames) }
{
    let start = ends::put_head(out, keep.heading);
    let whole = put_voices(out, start, s, keep.frames);
    let end = put_rest(out, whole, s, keep.at, keep.rest);
    ends::put_end(out, end, keep.frames);
    end
}

// Lays the voice blocks from behind the head on, as far as so many frames reach.
fn put_voices(out: &mut [u8], start: usize, s: &[u8], frames: u32) -> usize
    requires start_in_bounds { start ≤ length out.old }
    requires s_len_bound { length s.now ≤ longest }
    ensures value { result ≡ after out.old start (voice_blocks (first_frames (voices_from s.now (after_head 0)) frames)) }
    ensures out_after { out.new ≡ laid out.old start (voice_blocks (first_frames (voices_from s.now (after_head 0)) frames)) }
{
    let mut end = start;
    let mut at = 14;
    let mut left = 18 * frames as usize;
    // no index is counted: each block says where the next one stands
    while 0 < left {
        match voices::find(s, at, 0) {
            None => return end,
            Some(found) => {
                let first = found.first;
                let size = found.rest + 18;
                let kept = size.min(left);
                end = put_voice(out, end, kept, &s[first..first + kept]);
                at = first + size;
                left -= kept;
            }
        }
    }
    end
}

// Lays the block of so many frames that stands at a place; no block where there are none.
fn put_rest(out: &mut [u8], end: usize, s: &[u8], at: usize, frames: u32) -> usize
    requires end_in_bounds { end ≤ length out.old }
    requires s_len_bound { length s.now ≤ longest }
    requires frames_in_bounds { reach_of at frames ≤ length s.now }
    ensures value { result ≡ after out.old end (voice_blocks (frames_at s.now at frames)) }
    ensures out_after { out.new ≡ laid out.old end (voice_blocks (frames_at s.now at frames)) }
{
    if frames == 0 {
        return end;
    }
    let from = at + 6;
    let size = 18 * frames as usize;
    put_voice(out, end, size, &s[from..from + size])
}

// Lays a voice block of so many bytes.
fn put_voice(out: &mut [u8], at: usize, size: usize, payload: &[u8]) -> usize
    requires size_value { size ≡ length payload.now }
    requires size_le_longest { size ≤ longest }
    ensures value { result ≡ after out.old at (block 2 payload.now) }
    ensures out_after { out.new ≡ laid out.old at (block 2 payload.now) }
{
    let [a, b, c, d] = (size as u32).to_le_bytes();
    let header = text::put_word(out, at, &[a, b, c, d, 2, 0]);
    text::put_word(out, header, payload)
}
