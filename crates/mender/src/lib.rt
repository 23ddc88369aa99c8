// Salvaging for C, as include/oatlantern.h declares it.
#![tactic(auto)]

ghost use Rattle.std.specs.Prelude.{◌≡◌, length};
ghost use Rattle.salvage.specs.Salvaging.{salvage_of, buffer_of};
ghost use Rattle.mender.specs.Results.{salvage_result, changes_left};

use salvage::Salvaged;

// Salvages any bytes into a buffer, and tells what was changed: 0 for a sound recording, 1 for a mended one, or minus a refusal, which
// writes nothing.
pub fn oatlantern_salvage(recording: &[u8], out: &mut [u8], changes: &mut [usize; 5]) -> i32
    ensures value { result ≡ salvage_result (salvage_of recording.now (length out.old)) }
    ensures out_after { out.new ≡ buffer_of recording.now out.old }
    ensures changes_after { changes.new ≡ changes_left (salvage_of recording.now (length out.old)) (length recording.now) changes.old }
{
    match restorer::salvage(recording, out) {
        Ok(Salvaged::Sound) => {
            *changes = [0, 0, 0, 0, recording.len()];
            0
        }
        Ok(Salvaged::Mended(made)) => {
            *changes = [
                made.dropped,
                made.from,
                made.frames as usize,
                made.end,
                made.long,
            ];
            1
        }
        Err(why) => verdicts::minus(why.refusal_number()),
    }
}
