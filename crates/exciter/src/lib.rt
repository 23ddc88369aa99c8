// Makes the excitation of a subframe (document 02, K6): the adaptive code from the register, the ternary code mixed into it, and the
// register after it. What each of them is says `excitation`; an element is `mixing`'s, one after the other.
#![tactic(auto)]

ghost use Rattle.std.specs.Prelude.{◌≡◌, ◌≤◌, pos, length, get_or};
ghost use Rattle.excitation.specs.Register.{holding, moved_by};
ghost use Rattle.excitation.specs.Excitation.{adaptive_of, mixed_of, mixed_by, excitation_of};
ghost use Rattle.excitation.specs.Outcome.{outcome_of, register_moved, excited_of, excitation_left};

use excitation::{Refusal, Register};

// Writes the excitation of a subframe into a buffer of sixty, by a delay in twelfths and the indices PG, CI and CG, and moves the
// register by it. A refusal leaves both.
pub fn excite(
    register: &mut Register,
    delay: u32,
    pg: u16,
    ci: u16,
    cg: u16,
    out: &mut [i32],
) -> Result<(), Refusal>
    ensures value { result ≡ (excited_of register.old delay pg ci cg (length out.old)).outcome }
    ensures register_after { register.new ≡ (excited_of register.old delay pg ci cg (length out.old)).register }
    ensures out_after { out.new ≡ excitation_left register.old delay pg ci cg out.old }
{
    outcome_of(out.len(), delay, pg, ci, cg)?;
    *register = moved_by(*register, delay, pg, ci, cg, out);
    Ok(())
}

// Why there is none with a buffer of so many elements: the buffer first, then the indices, then the delay.
fn outcome_of(long: usize, delay: u32, pg: u16, ci: u16, cg: u16) -> Result<(), Refusal>
    ensures { result ≡ outcome_of long delay pg ci cg }
{
    if long != 60 {
        return Err(Refusal::WrongLength);
    }
    if 31 < pg {
        return Err(Refusal::TooLarge);
    }
    if 511 < ci {
        return Err(Refusal::TooLarge);
    }
    if 31 < cg {
        return Err(Refusal::TooLarge);
    }
    delays::rank_with(delay).ok_or(Refusal::NotListed)?;
    if delay % 12 != 0 {
        return Err(Refusal::NotWhole);
    }
    Ok(())
}

// Writes the excitation, by what is not refused, and answers the register moved by it.
fn moved_by(register: Register, delay: u32, pg: u16, ci: u16, cg: u16, out: &mut [i32]) -> Register
    requires { outcome_of (length out.old) delay pg ci cg ≡ Ok tt }
    ensures value { result ≡ register_moved register delay pg ci cg }
    ensures out_after { out.new ≡ excitation_of register.elements delay pg ci cg }
{
    let before = register.elements;
    adaptive(&before, (delay / 12) as usize, out);
    mix_codes(pg, ci, cg, out);
    moved(&before, out)
}

// The adaptive code for a whole delay: the last so many elements of the register, round and round.
fn adaptive(register: &[i32; 147], whole: usize, out: &mut [i32])
    requires { (20 ≤ whole) × (whole ≤ 147) × (length out.old ≡ 60) }
    ensures { out.new ≡ adaptive_of register.now whole }
{
    let first = 147 - whole;
    let fresh = whole.min(60);
    for t in 0..fresh {
        out[t] = register[first + t];
    }
    for t in fresh..60 {
        out[t] = out[t - whole];
    }
}

// Mixes the ternary code of an index into the adaptive code.
fn mix_codes(pg: u16, ci: u16, cg: u16, out: &mut [i32])
    requires { (pg ≤ 31) × (ci ≤ 511) × (cg ≤ 31) × (length out.old ≡ 60) }
    ensures { out.new ≡ mixed_by pg ci cg out.old }
{
    let stochastic = gain_in(&gains::CG, cg);
    let past = gain_in(&gains::PG, pg);
    let mut code = [0i8; 60];
    let _ = codebook::write_code(ci, &mut code);
    mix(stochastic, &code, past, out);
}

// The gain of an index in a table.
fn gain_in(table: &[i16; 32], index: u16) -> i32
    requires { index ≤ 31 }
    ensures { result ≡ get_or table.now index (pos 0) }
{
    i32::from(table[usize::from(index)])
}

// Mixes a ternary code into an adaptive one, element by element.
fn mix(cg: i32, code: &[i8], pg: i32, out: &mut [i32])
    requires { (length code.now ≡ 60) × (length out.old ≡ 60) }
    ensures { out.new ≡ mixed_of cg code.now pg out.old }
{
    for (k, ternary) in code.iter().enumerate() {
        out[k] = mixing::element(cg, *ternary, pg, out[k]);
    }
}

// The register after sixty new elements: the last 147 of old and new.
fn moved(before: &[i32; 147], new: &[i32]) -> Register
    requires before_len { length before.now ≡ 147 }
    requires len { length new.now ≡ 60 }
    ensures { result ≡ holding (moved_by before.now new.now) }
{
    let mut elements = [0i32; 147];
    elements[..87].copy_from_slice(&before[60..]);
    elements[87..].copy_from_slice(new);
    Register { elements }
}
