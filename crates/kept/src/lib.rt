// What can be kept of a damaged recording: its head, its voice blocks before the first refusal and the whole frames of one that runs
// past the end, as many as fit with a fresh end.
#![tactic(auto)]

ghost use Rattle.std.specs.Prelude.{◌≡◌, ◌+◌, ◌*◌, ◌≤◌, ◌<◌, length};
ghost use Rattle.blocks.specs.Walk.{longest, walked_of};
ghost use Rattle.kept.specs.Keeping.{frames_left, left_by, left_at};
ghost use Rattle.kept.specs.Planning.{number_of, plan_of};
ghost use Rattle.kept.specs.Steps.{reach_of, fewer_of, keep_by, plan_by};

use blocks::{Cause, Heading, Walk};

// Why nothing can be written: the recording is too long, the buffer is not 65,536 bytes, there is no head, no whole frame.
#[derive(Clone, Copy, Debug, PartialEq, Eq)]
pub enum Unsalvaged {
    TooLong,
    WrongBuffer,
    NoHead,
    NoFrame,
}

// What is to be written: the head, the frames in all, and how many of them are the first ones of the block at `at`, which runs past
// the end; and whether the recording was sound.
#[derive(Clone, Copy)]
pub struct Keep {
    pub heading: Heading,
    pub frames: u32,
    pub rest: u32,
    pub at: usize,
    pub sound: bool,
}

impl Unsalvaged {
    // The number of the refusal.
    pub fn refusal_number(self) -> u32
        ensures { result ≡ number_of self }
    {
        match self {
            Unsalvaged::TooLong => 1,
            Unsalvaged::WrongBuffer => 1,
            Unsalvaged::NoHead => 12,
            Unsalvaged::NoFrame => 12,
        }
    }
}

// What is to be written of any bytes into a buffer of so many, or why nothing is.
pub fn planned(s: &[u8], room: usize) -> Result<Keep, Unsalvaged>
    ensures { result ≡ plan_of s.now room }
{
    if 65536 < s.len() {
        return Err(Unsalvaged::TooLong);
    }
    if room != 65536 {
        return Err(Unsalvaged::WrongBuffer);
    }
    let walked = walk::walk_through(s);
    let left = left_of(s, walked.ending);
    plan_by(walked.walk, left, walked.ending.is_ok())
}

// How many whole frames a voice block that runs past the end still has, where that is how a walk ended; else 0.
fn left_of(s: &[u8], ending: Result<(), Cause>) -> u32
    requires s_len_bound { length s.now ≤ longest }
    requires s_value { (walked_of s.now).ending ≡ ending }
    ensures { result ≡ left_at s.now ending }
{
    match ending {
        Ok(()) => 0,
        Err(cause) => left_by(s, cause),
    }
}

// The same by the cause of the refusal.
fn left_by(s: &[u8], cause: Cause) -> u32
    requires s_len_bound { length s.now ≤ longest }
    requires s_value { (walked_of s.now).ending ≡ Err cause }
    ensures { result ≡ left_by s.now cause }
{
    match cause {
        Cause::PastEnd(at) => left_in(s, at),
        _ => 0,
    }
}

// The same of the block at a place, whose header is whole.
fn left_in(s: &[u8], at: usize) -> u32
    requires at_in_bounds { at + 6 ≤ length s.now }
    requires s_len_bound { length s.now ≤ longest }
    ensures { result ≡ frames_left s.now at }
{
    let kind = u16::from_le_bytes([s[at + 4], s[at + 5]]);
    if kind != 2 {
        return 0;
    }
    let bytes = s.len() - at - 6;
    (bytes / 18) as u32
}

// What is to be written after a walk, where so many frames are left of a block past its end.
fn plan_by(walk: Walk, left: u32, sound: bool) -> Result<Keep, Unsalvaged>
    requires frames_bound { 18 * walk.frames ≤ walk.at }
    requires left_bound { walk.at + 18 * left ≤ longest }
    ensures { result ≡ plan_by walk left sound }
{
    if !walk.headed {
        return Err(Unsalvaged::NoHead);
    }
    if walk.frames + left == 0 {
        return Err(Unsalvaged::NoFrame);
    }
    Ok(keep_by(walk, left, sound))
}

// As many frames of all that are there as fit.
fn keep_by(walk: Walk, left: u32, sound: bool) -> Keep
    requires frames_bound { 18 * walk.frames ≤ walk.at }
    requires left_bound { walk.at + 18 * left ≤ longest }
    requires left_nonzero { 0 < walk.frames + left }
    ensures { result ≡ keep_by walk left sound }
{
    let frames = fewer(reach(walk.at, left), walk.frames + left);
    Keep {
        heading: walk.heading,
        frames,
        rest: frames.saturating_sub(walk.frames),
        at: walk.at,
        sound,
    }
}

// Where a block of so many frames at a place ends; no block stands where there are none.
fn reach(at: usize, left: u32) -> usize
    requires { at + 18 * left ≤ longest }
    ensures { result ≡ reach_of at left }
{
    if left == 0 {
        return at;
    }
    at + 6 + 18 * left as usize
}

// As many of some frames as fit, where their blocks end there: the fresh end takes ten bytes, and with one frame less there is room.
fn fewer(reach: usize, frames: u32) -> u32
    requires { 0 < frames }
    ensures { result ≡ fewer_of reach frames }
{
    if 65526 < reach { frames - 1 } else { frames }
}
