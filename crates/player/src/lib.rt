// The excitation of a subframe for C, as include/oatlantern.h declares it.
#![tactic(auto)]

ghost use Rattle.std.specs.Prelude.{◌≡◌, length};
ghost use Rattle.verdicts.specs.Verdicts.{refused};
ghost use Rattle.excitation.specs.Register.{holding};
ghost use Rattle.excitation.specs.Outcome.{refusal_of, excited_of, excitation_left};

use excitation::Register;

// Writes the excitation into a buffer of sixty and moves the lent register on: 0, or minus a refusal, which leaves both.
pub fn oatlantern_excite(
    past: &mut [i32; 147],
    delay: u32,
    pg: u16,
    ci: u16,
    cg: u16,
    out: &mut [i32],
) -> i32
    ensures value { result ≡ refused (refusal_of (excited_of (holding past.old) delay pg ci cg (length out.old)).outcome) }
    ensures past_after { past.new ≡ (excited_of (holding past.old) delay pg ci cg (length out.old)).register.elements }
    ensures out_after { out.new ≡ excitation_left (holding past.old) delay pg ci cg out.old }
{
    let elements = *past;
    let mut register = Register { elements };
    let outcome = exciter::excite(&mut register, delay, pg, ci, cg, out);
    *past = register.elements;
    match outcome {
        Ok(()) => 0,
        Err(refusal) => verdicts::minus(refusal.refusal_number()),
    }
}
