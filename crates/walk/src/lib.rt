// The walk through the blocks of a recording, one after the other, to its answer or its refusal.
// A walk comes to a place of the bytes and knows what it has passed; what stands there takes it on or ends it.
#![tactic(auto)]

ghost use Rattle.std.specs.Prelude.{◌≡◌, ◌+◌, ◌*◌, ◌≤◌, length};
ghost use Rattle.blocks.specs.Walk.{longest, refuse, at_head, at_voice, ending_at, step_of, walk_from, walked_of};
ghost use Rattle.std.specs.declared.ops.ControlFlow.TheVariants.{Break};

use blocks::{Block, Cause, Heading, Walk, Walked};
use std::ops::ControlFlow;

// Walks through the blocks of any bytes: what was passed, and whether the recording is sound or why it is refused.
pub fn walk_through(s: &[u8]) -> Walked
    ensures { result ≡ walked_of s.now }
{
    let walk = Walk {
        at: 0,
        headed: false,
        heading: Heading { unit: 0, number: 0 },
        voices: 0,
        frames: 0,
    };
    if 65536 < s.len() {
        return Walked {
            walk,
            ending: Err(Cause::TooLong),
        };
    }
    walk_from(s, walk)
}

// The same from any block on, step by step to the end.
fn walk_from(s: &[u8], start: Walk) -> Walked
    requires s_len_bound { length s.now ≤ longest }
    requires frames_bound { 18 * start.frames ≤ start.at }
    ensures { result ≡ walk_from s.now start }
{
    let mut walk = start;
    // no index is counted: each step says where the next one begins
    loop {
        match advance(s, walk) {
            ControlFlow::Continue(next) => walk = next,
            ControlFlow::Break(ending) => return Walked { walk, ending },
        }
    }
}

// One step of a walk: on past a block, or to the end, which is no failure where it is a sound one.
fn advance(s: &[u8], w: Walk) -> ControlFlow<Result<(), Cause>, Walk>
    requires s_len_bound { length s.now ≤ longest }
    requires frames_bound { 18 * w.frames ≤ w.at }
    ensures { result ≡ step_of s.now w }
{
    match blocks::block_at(s, w.at) {
        Ok(Block::Head(heading)) => meet_head(w, heading),
        Ok(Block::Voice(size)) => meet_voice(w, size),
        Ok(Block::End(told)) => meet_end(s.len(), w.at, w.frames, told),
        Err(cause) => refuse(cause),
    }
}

// A step to a refusal.
fn refuse(cause: Cause) -> ControlFlow<Result<(), Cause>, Walk>
    ensures { result ≡ refuse cause }
{
    ControlFlow::Break(Err(cause))
}

// A walk that comes to a head: past it, where none was passed before.
fn meet_head(w: Walk, heading: Heading) -> ControlFlow<Result<(), Cause>, Walk>
    requires { w.at + 6 + 8 ≤ longest }
    ensures { result ≡ at_head w heading }
{
    let at = w.at;
    if w.headed {
        return refuse(Cause::OutOfTurn(at));
    }
    let next = at + 6 + 8;
    ControlFlow::Continue(Walk {
        at: next,
        headed: true,
        heading,
        voices: next,
        frames: w.frames,
    })
}

// A walk that comes to a voice block: past it and its frames, where the head was passed before.
fn meet_voice(w: Walk, size: usize) -> ControlFlow<Result<(), Cause>, Walk>
    requires size_bound { w.at + 6 + size ≤ longest }
    requires frames_bound { 18 * w.frames ≤ w.at }
    ensures { result ≡ at_voice w size }
{
    let at = w.at;
    if w.headed {
        let next = at + 6 + size;
        let more = (size / 18) as u32;
        let frames = w.frames + more;
        let mut further = w;
        further.at = next;
        further.frames = frames;
        return ControlFlow::Continue(further);
    }
    refuse(Cause::OutOfTurn(at))
}

// A walk past so many frames that comes to an end block that tells a number of frames, in so many bytes in all.
fn meet_end(long: usize, at: usize, frames: u32, told: u32) -> ControlFlow<Result<(), Cause>, Walk>
    requires { at + 6 + 4 ≤ longest }
    ensures { result ≡ Break (ending_at long at frames told) }
{
    ControlFlow::Break(ending_at(long, at, frames, told))
}

// How it ends there.
fn ending_at(long: usize, at: usize, frames: u32, told: u32) -> Result<(), Cause>
    requires { at + 6 + 4 ≤ longest }
    ensures { result ≡ ending_at long at frames told }
{
    if frames == 0 {
        return Err(Cause::OutOfTurn(at));
    }
    if told != frames {
        return Err(Cause::WrongCount(at));
    }
    let after = at + 6 + 4;
    if long != after {
        return Err(Cause::Extra(after));
    }
    Ok(())
}
