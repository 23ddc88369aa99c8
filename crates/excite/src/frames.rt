// The lines of each frame, by a register that runs on from subframe to subframe.
ghost use Rattle.std.specs.Prelude.{◌≡◌, IfOk};
ghost use Rattle.blocks.specs.Frames.{frames_of};
ghost use Rattle.excitation.specs.Outcome.{excited_of};
ghost use Rattle.excite.specs.Running.{subframes_after, frame_after, register_after};

use crate::line;
use excitation::Register;
use passes::Hearing;
use std::io::{self, Write};
use values::State;

// The register after the lines of so many frames, by a pass from a fresh state and a silent register on.
pub fn all(out: &mut impl Write, s: &[u8], count: u32) -> io::Result<Register>
    ensures { IfOk result (λ register. register ≡ register_after (frames_of s.now) count) }
{
    let mut pass = passes::start(s, State::fresh());
    let mut register = Register::silent();
    for k in 0..count {
        let step = steps::next(s, pass);
        register = one(out, k + 1, step.hearing, register)?;
        pass = step.pass;
    }
    Ok(register)
}

// The lines of a frame by its number: one where it is refused, and the register as it was; else those of its subframes.
fn one(out: &mut impl Write, k: u32, hearing: Hearing, register: Register) -> io::Result<Register>
    ensures { IfOk result (λ after. after ≡ frame_after hearing register) }
{
    let values = hearing.values;
    let outcome = values.outcome;
    let number = outcome.refusal_number();
    if number != 0 {
        line::frame_refused(out, k, number)?;
        return Ok(register);
    }
    let reading = hearing.reading;
    let indices = reading.indices;
    let subframes = indices.subframes;
    let delays = values.delays;
    heard(out, k, delays, subframes, register)
}

// The lines of the four subframes, from their delays and the four indices of each.
fn heard(
    out: &mut impl Write,
    k: u32,
    delays: [u16; 4],
    indices: [u16; 16],
    mut register: Register,
) -> io::Result<Register>
    ensures { IfOk result (λ after. after ≡ subframes_after delays indices register 4) }
{
    for n in 0..4 {
        let i = 4 * n;
        subframe(
            out,
            k,
            n as u32 + 1,
            &mut register,
            delays[n],
            indices[i + 1],
            indices[i + 2],
            indices[i + 3],
        )?;
    }
    Ok(register)
}

// The line of a subframe, and the register moved on, also where the line was not written.
fn subframe(
    out: &mut impl Write,
    k: u32,
    n: u32,
    register: &mut Register,
    delay: u16,
    pg: u16,
    ci: u16,
    cg: u16,
) -> io::Result<()>
    ensures { register.new ≡ (excited_of register.old delay pg ci cg 60).register }
{
    let mut elements = [0i32; 60];
    match exciter::excite(register, u32::from(delay), pg, ci, cg, &mut elements) {
        Ok(()) => line::subframe(out, k, n, &elements),
        Err(refusal) => line::subframe_refused(out, k, n, refusal.refusal_number()),
    }
}
