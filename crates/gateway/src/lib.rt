// The C boundary: the frame reader and the frame writer on plain byte buffers, as include/oatlantern.h declares them.
// A record is 56 bytes, each index a pair of them, the lower half first. Results are numbers: a refusal is minus its number.
#![tactic(auto)]

ghost use Rattle.std.specs.Prelude.{◌≡◌, length};
ghost use Rattle.frame.specs.Answers.{refusal_of};
ghost use Rattle.verdicts.specs.Verdicts.{refused};
ghost use Rattle.gateway.specs.Results.{kind_of, read_result, record_left, write_result, frame_left_by};

use frame::{Correction, Refusal};

// Reads a frame into a record: 16 times the order mark plus the correction number, and 256 more for a parity hit, 512 for a data hit;
// or a refusal.
pub fn oatlantern_read_frame(frame: &[u8], out: &mut [u8]) -> i32
    ensures value { result ≡ read_result frame.now (length out.old) }
    ensures out_after { out.new ≡ record_left frame.now out.old }
{
    let Some(reading) = reader::read(frame) else {
        return -1;
    };
    let correction = reading.correction;
    let number = parity::number_for(correction);
    let kind = kind_of(correction);
    if pairs::put(reading.indices, out) {
        return (16 * reading.mark + number + kind) as i32;
    }
    -1
}

// What the kind of a correction adds to the reader's result.
fn kind_of(correction: Correction) -> usize
    ensures { result ≡ kind_of correction }
{
    match correction {
        Correction::Clean => 0,
        Correction::Parity(_) => 256,
        Correction::Data(_, _) => 512,
    }
}

// Writes a record's frame: 0, or a refusal.
pub fn oatlantern_write_frame(record: &[u8], frame: &mut [u8]) -> i32
    ensures value { result ≡ write_result «record».now (length frame.old) }
    ensures frame_after { frame.new ≡ frame_left_by «record».now frame.old }
{
    match pairs::take(record) {
        Some(indices) => result(writer::write(indices, frame)),
        None => -1,
    }
}

// The writer's answer as a number.
fn result(written: Result<(), Refusal>) -> i32
    ensures { result ≡ refused (refusal_of written) }
{
    match written {
        Ok(()) => 0,
        Err(Refusal::WrongLength) => -1,
        Err(Refusal::TooLarge(_)) => -2,
        Err(Refusal::Falling(_)) => -3,
        Err(Refusal::Expansion) => -6,
    }
}
