// What is said of a whole recording: its counts or its refusal, and each frame heard after all the frames before it.
#![tactic(auto)]

ghost use Rattle.std.specs.Prelude.{◌≡◌, suc};
ghost use Rattle.values.specs.Values.{fresh_state};
ghost use Rattle.blocks.specs.Walk.{walked_of};
ghost use Rattle.blocks.specs.Frames.{frames_of};
ghost use Rattle.passes.specs.Counted.{counts_of};
ghost use Rattle.passes.specs.Pass.{frame_heard, start_of, pass_at};
ghost use Rattle.recording.specs.Judged.{summary_of, judged_of};

use blocks::{Cause, Heading, Walk};
use passes::{Counts, Hearing, Pass};
use values::State;

// A sound recording told in numbers: what its head tells, how many frames it has, and their counts.
#[derive(Clone, Copy)]
pub struct Summary {
    pub heading: Heading,
    pub frames: u32,
    pub counts: Counts,
}

// Judges any bytes: a sound recording with its counts, or the refusal.
pub fn judge(s: &[u8]) -> Result<Summary, Cause>
    ensures { result ≡ judged_of s.now }
{
    let walked = walk::walk_through(s);
    walked.ending?;
    Ok(summarize(s, walked.walk))
}

// A sound recording whose blocks were walked, told in numbers.
fn summarize(s: &[u8], walk: Walk) -> Summary
    requires walk_value { walk ≡ (walked_of s.now).walk }
    requires s_value { (walked_of s.now).ending ≡ Ok tt }
    ensures { result ≡ summary_of walk (counts_of fresh_state (frames_of s.now)) }
{
    let end = pass_after(s, s.len(), passes::begin(walk, State::fresh()));
    Summary {
        heading: walk.heading,
        frames: walk.frames,
        counts: end.counts,
    }
}

// The pass k frames after one at the start; where there are not so many, the one at the end.
fn pass_after(s: &[u8], k: usize, mut pass: Pass) -> Pass
    requires { pass ≡ start_of pass.state s.now }
    ensures { result ≡ pass_at pass.state s.now k }
{
    for _ in 0..k {
        let step = steps::next(s, pass);
        if step.pass.frames == pass.frames {
            return pass;
        }
        pass = step.pass;
    }
    pass
}

// Frame k of a recording, counted from 1, heard after all the frames before it. There is no frame 0, as there is none in no bytes.
pub fn frame_heard(s: &[u8], k: usize) -> Hearing
    ensures { result ≡ frame_heard fresh_state (frames_of s.now) k }
{
    if k == 0 {
        return heard_after(&s[..0], 0);
    }
    let before = k - 1;
    heard_after(s, before)
}

// The frame after so many frames of a recording, heard after all of them.
fn heard_after(s: &[u8], before: usize) -> Hearing
    ensures { result ≡ frame_heard fresh_state (frames_of s.now) (suc before) }
{
    let start = passes::start(s, State::fresh());
    let step = steps::next(s, pass_after(s, before, start));
    step.hearing
}
