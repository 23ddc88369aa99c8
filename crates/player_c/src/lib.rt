// The archive's part of `player`: the excitation of a subframe under the name that include/oatlantern.h declares.
// Its function only calls the one of its name there.
#![tactic(auto)]

ghost use Rattle.std.specs.Prelude.{◌≡◌, length};
ghost use Rattle.verdicts.specs.Verdicts.{refused};
ghost use Rattle.excitation.specs.Register.{holding};
ghost use Rattle.excitation.specs.Outcome.{refusal_of, excited_of, excitation_left};

// Writes the excitation into a buffer of sixty and moves the lent register on: 0, or minus a refusal, which leaves both.
#[unsafe(no_mangle)]
pub extern "C" fn oatlantern_excite(
    past: &mut [i32; 147],
    delay: u32,
    pg: u16,
    ci: u16,
    cg: u16,
    out: &mut [i32],
) -> i32
    ensures value { result ≡ refused (refusal_of (excited_of (holding past.old) delay pg ci cg (length out.old)).outcome) }
    ensures past_after { past.new ≡ (excited_of (holding past.old) delay pg ci cg (length out.old)).register.elements }
    ensures out_after { out.new ≡ excitation_left (holding past.old) delay pg ci cg out.old }
{
    player::oatlantern_excite(past, delay, pg, ci, cg, out)
}
