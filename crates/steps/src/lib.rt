// A step of a pass: the next frame is heard with the state so far and counted, and the pass goes past it.
#![tactic(auto)]

ghost use Rattle.std.specs.Prelude.{◌≡◌, ◌≤◌};
ghost use Rattle.blocks.specs.Walk.{longest};
ghost use Rattle.passes.specs.Counted.{repair_of, breaks_at, break_of, counting_of};
ghost use Rattle.passes.specs.Pass.{ahead_of, past_frame, step_by, next_of};

use blocks::Found;
use frame::{Correction, Reading};
use passes::{Counts, Hearing, Pass, Step};
use values::Values;

// The next frame of any pass through any bytes.
pub fn next(s: &[u8], pass: Pass) -> Step
    ensures { result ≡ next_of s.now pass }
{
    match ahead(pass, s) {
        None => stay(pass, s),
        Some(found) => hear(pass, s, found),
    }
}

// Where the next frame stands. A pass that was not begun here is at its end.
fn ahead(pass: Pass, s: &[u8]) -> Option<Found>
    ensures { result ≡ ahead_of s.now pass }
{
    let passed = pass.frames;
    if 65536 < passed || passed < pass.counts.repaired || passed < pass.counts.breaks {
        return None;
    }
    voices::find(s, pass.at, pass.left)
}

// At the end nothing is heard, and the pass stays where it is.
fn stay(pass: Pass, s: &[u8]) -> Step
    ensures { result ≡ step_by s.now pass None }
{
    let reading = Reading::nothing();
    let values = Values::nothing(pass.state);
    let hearing = Hearing { reading, values };
    Step { hearing, pass }
}

// The frame that was found is heard, and the pass goes past it.
fn hear(pass: Pass, s: &[u8], found: Found) -> Step
    requires { ahead_of s.now pass ≡ Some found }
    ensures { result ≡ step_by s.now pass (Some found) }
{
    let first = found.first;
    let end = first + 18;
    let reading = reader::read(&s[first..end]).unwrap_or(Reading::nothing());
    let values = decoder::values_of(reading.indices, pass.state);
    let hearing = Hearing { reading, values };
    Step {
        hearing,
        pass: past(pass, hearing, end, found.rest),
    }
}

// The pass after a frame that was heard, at the place after it.
fn past(pass: Pass, hearing: Hearing, end: usize, left: usize) -> Pass
    requires frames_le_longest { pass.frames ≤ longest }
    requires repaired_le_longest { pass.counts.repaired ≤ longest }
    requires breaks_le_longest { pass.counts.breaks ≤ longest }
    ensures { result ≡ past_frame pass hearing end left }
{
    let frames = pass.frames + 1;
    let correction = hearing.reading.correction;
    let at = breaks_at(last_before(pass));
    let counts = counted(pass.counts, correction, hearing.reading.indices.sy, at);
    let state = hearing.values.state;
    Pass {
        at: end,
        left,
        frames,
        counts,
        state,
    }
}

// The last SY before the next frame of a pass, in whichever voice block that stands.
fn last_before(pass: Pass) -> Option<u16>
    ensures { result ≡ pass.state.last }
{
    pass.state.last
}

// The SY at which the next frame is a sync break: that of the frame before it, or 1 where there was none.
fn breaks_at(last: Option<u16>) -> u16
    ensures { result ≡ breaks_at last }
{
    match last {
        None => 1,
        Some(sy) => sy,
    }
}

// Counts with a frame counted too, by what correction did, its SY and the SY at which it is a break.
fn counted(counts: Counts, correction: Correction, sy: u16, at: u16) -> Counts
    requires repaired_le_longest { counts.repaired ≤ longest }
    requires breaks_le_longest { counts.breaks ≤ longest }
    ensures { result ≡ counting_of counts correction sy at }
{
    let repaired = counts.repaired + repair_by(correction);
    let breaks = counts.breaks + break_by(sy, at);
    Counts { repaired, breaks }
}

// 1 for a repaired frame: one in which a data bit was inverted.
fn repair_by(correction: Correction) -> u32
    ensures { result ≡ repair_of correction }
{
    match correction {
        Correction::Clean => 0,
        Correction::Parity(_) => 0,
        Correction::Data(_, _) => 1,
    }
}

// 1 for a sync break, by its SY and the SY at which it is one.
fn break_by(sy: u16, at: u16) -> u32
    ensures { result ≡ break_of sy at }
{
    u32::from(sy == at)
}
