// The verdict on a recording in numbers, as the functions for C answer it: 0, or minus the number of the refusal, and what is told.
#![tactic(auto)]

ghost use Rattle.std.specs.Prelude.{◌≡◌};
ghost use Rattle.verdicts.specs.Verdicts.{minus_of, verdict_of, cause_number, refusal_told, recording_told};
ghost use Rattle.blocks.specs.Refusals.{told_of};

use blocks::{Cause, Told};

// Judges any bytes as a recording. Of a sound one its unit and its number are told; of a refused one the place, the size and the
// cause.
pub fn tell(s: &[u8], told: &mut [usize; 5]) -> i32
    ensures value { result ≡ verdict_of s.now }
    ensures told_after { told.new ≡ recording_told s.now }
{
    let walked = walk::walk_through(s);
    match walked.ending {
        Err(cause) => {
            *told = told_of(cause);
            minus(refusals::refusal_number(cause))
        }
        Ok(()) => {
            let heading = walked.walk.heading;
            *told = [heading.unit as usize, heading.number as usize, 0, 0, 0];
            0
        }
    }
}

// Minus the number of a refusal. None is over 15; what is counts as 15.
pub fn minus(number: u32) -> i32
    ensures { result ≡ minus_of number }
{
    0 - number.min(15) as i32
}

// What is told of a refused recording.
fn told_of(cause: Cause) -> [usize; 5]
    ensures { result ≡ refusal_told (told_of cause) (cause_number cause) }
{
    let number = cause_number(cause);
    match refusals::tells(cause) {
        Told::Nothing => [0, 0, 0, 0, number],
        Told::Place(place) => [0, 0, place, 0, number],
        Told::PlaceAndSize(place, size) => [0, 0, place, size as usize, number],
    }
}

// The number of a cause.
fn cause_number(cause: Cause) -> usize
    ensures { result ≡ cause_number cause }
{
    match cause {
        Cause::TooLong => 1,
        Cause::HeaderCut(_) => 2,
        Cause::PastEnd(_) => 3,
        Cause::WrongSize(_, _) => 4,
        Cause::UnknownKind(_) => 5,
        Cause::OutOfTurn(_) => 6,
        Cause::EndMissing(_) => 7,
        Cause::WrongCount(_) => 8,
        Cause::Extra(_) => 9,
    }
}
