// A pass through the frames of a recording in order. It stands before a frame and keeps the counts and the state of those that it has
// passed; one step hears the next frame with that state, and takes the pass past it. Here is where a pass begins; a step is made by
// `steps`.
#![tactic(auto)]

ghost use Rattle.std.specs.Prelude.{◌≡◌};
ghost use Rattle.passes.specs.Pass.{begun_at, start_of};

use blocks::Walk;
use frame::Reading;
use values::{State, Values};

// Repaired frames and sync breaks.
#[derive(Clone, Copy)]
pub struct Counts {
    pub repaired: u32,
    pub breaks: u32,
}

// What is heard of a frame: what was read in it, and the values of what was read. Where there is no frame, the outcome is `Nothing`.
#[derive(Clone, Copy)]
pub struct Hearing {
    pub reading: Reading,
    pub values: Values,
}

// A pass through the frames: the place of the next one, how many bytes of its voice block are left there, how many frames were
// passed, their counts, and the state after them.
#[derive(Clone, Copy)]
pub struct Pass {
    pub at: usize,
    pub left: usize,
    pub frames: u32,
    pub counts: Counts,
    pub state: State,
}

// One frame of a pass, and the pass after it.
#[derive(Clone, Copy)]
pub struct Step {
    pub hearing: Hearing,
    pub pass: Pass,
}

// A pass before the first frame of a recording, after a state; one at its end where the recording is refused.
pub fn start(s: &[u8], state: State) -> Pass
    ensures { result ≡ start_of state s.now }
{
    let walked = walk::walk_through(s);
    match walked.ending {
        Ok(()) => Pass::begun(walked.walk.voices, state),
        Err(_) => Pass::begun(s.len(), state),
    }
}

// A pass before the first frame of a recording whose blocks were walked, after a state.
pub fn begin(walk: Walk, state: State) -> Pass
    ensures { result ≡ begun_at walk.voices state }
{
    Pass::begun(walk.voices, state)
}

impl Pass {
    // A pass before the frame at a place, with no frame passed.
    fn begun(at: usize, state: State) -> Pass
        ensures { result ≡ begun_at at state }
    {
        Pass {
            at,
            left: 0,
            frames: 0,
            counts: Counts {
                repaired: 0,
                breaks: 0,
            },
            state,
        }
    }
}
