// The listing of a recording: its text, byte for byte, laid into a lent buffer.
// Each put lays its lines after the last one, as far as there is room; that the whole text has room is asked once, of the listing.
#![tactic(auto)]

ghost use Rattle.std.specs.Prelude.{◌≡◌, ◌≤◌, length};
ghost use Rattle.text.specs.Laid.{laid, after};
ghost use Rattle.blocks.specs.Walk.{walked_of};
ghost use Rattle.blocks.specs.Frames.{frames_of};
ghost use Rattle.passes.specs.Pass.{start_of};
ghost use Rattle.listing.specs.Listing.{said_of, body_of, sound_text, listed_of, listing_left};

use blocks::Walk;
use lines::{Line, Said};
use passes::{Hearing, Pass};
use values::State;

// Why nothing is listed: the buffer is not 131,072 bytes.
#[derive(Clone, Copy, Debug, PartialEq, Eq)]
pub enum Unlisted {
    WrongLength,
}

// Lists any bytes as a recording, into a lent buffer, and answers the length of the text. A refusal writes nothing.
pub fn list(s: &[u8], out: &mut [u8]) -> Result<usize, Unlisted>
    ensures value { result ≡ listed_of s.now (length out.old) }
    ensures out_after { out.new ≡ listing_left s.now out.old }
{
    if out.len() != 131072 {
        return Err(Unlisted::WrongLength);
    }
    let walked = walk::walk_through(s);
    match walked.ending {
        Err(cause) => Ok(lines::put(out, 0, Line::Refused(cause))),
        Ok(()) => Ok(put_sound(out, s, walked.walk)),
    }
}

// Lays all lines of a sound recording whose blocks were walked.
fn put_sound(out: &mut [u8], s: &[u8], walk: Walk) -> usize
    requires walk_value { walk ≡ (walked_of s.now).walk }
    requires s_value { (walked_of s.now).ending ≡ Ok tt }
    ensures value { result ≡ after out.old 0 (sound_text walk (frames_of s.now)) }
    ensures out_after { out.new ≡ laid out.old 0 (sound_text walk (frames_of s.now)) }
{
    let heading = walk.heading;
    let start = lines::put(out, 0, Line::Head(heading, walk.frames));
    let begun = passes::begin(walk, State::fresh());
    put_frames(out, start, s, begun)
}

// What is said of frame n, which was heard.
fn said(n: u32, hearing: Hearing) -> Said
    ensures { result ≡ said_of n hearing }
{
    let values = hearing.values;
    let outcome = values.outcome;
    let refusal = outcome.refusal_number();
    let reading = hearing.reading;
    let correction = reading.correction;
    let delays = values.delays;
    Said {
        number: n,
        correction,
        refusal,
        mark: reading.mark,
        sy: reading.indices.sy,
        first: delays[0],
        second: delays[1],
        third: delays[2],
        fourth: delays[3],
    }
}

// Lays a line for each frame of a pass before the first, and the last line with the counts.
fn put_frames(out: &mut [u8], start: usize, s: &[u8], mut pass: Pass) -> usize
    requires pass_value { pass ≡ start_of pass.state s.now }
    requires start_in_bounds { start ≤ length out.old }
    ensures value { result ≡ after out.old start (body_of pass.state (frames_of s.now)) }
    ensures out_after { out.new ≡ laid out.old start (body_of pass.state (frames_of s.now)) }
{
    let mut end = start;
    // no index is counted: each step says where the next one begins, or that there is none
    loop {
        let step = steps::next(s, pass);
        if step.pass.frames == pass.frames {
            return lines::put(
                out,
                end,
                Line::Last(pass.counts.repaired, pass.counts.breaks),
            );
        }
        pass = step.pass;
        end = lines::put(out, end, Line::Frame(said(pass.frames, step.hearing)));
    }
}
