// The refusals of a recording: the number of each cause, and what it tells.
#![tactic(auto)]

ghost use Rattle.std.specs.Prelude.{◌≡◌};
ghost use Rattle.blocks.specs.Refusals.{refusal_of, told_of};

use blocks::{Cause, Told};

// The number of a refusal.
pub fn refusal_number(cause: Cause) -> u32
    ensures { result ≡ refusal_of cause }
{
    match cause {
        Cause::TooLong => 1,
        Cause::HeaderCut(_) => 9,
        Cause::PastEnd(_) => 10,
        Cause::WrongSize(_, _) => 11,
        Cause::UnknownKind(_) => 8,
        Cause::OutOfTurn(_) => 8,
        Cause::EndMissing(_) => 8,
        Cause::WrongCount(_) => 8,
        Cause::Extra(_) => 8,
    }
}

// What a refusal tells beside its number.
pub fn tells(cause: Cause) -> Told
    ensures { result ≡ told_of cause }
{
    match cause {
        Cause::TooLong => Told::Nothing,
        Cause::HeaderCut(p) => Told::Place(p),
        Cause::PastEnd(p) => Told::Place(p),
        Cause::WrongSize(p, size) => Told::PlaceAndSize(p, size),
        Cause::UnknownKind(p) => Told::Place(p),
        Cause::OutOfTurn(p) => Told::Place(p),
        Cause::EndMissing(p) => Told::Place(p),
        Cause::WrongCount(p) => Told::Place(p),
        Cause::Extra(p) => Told::Place(p),
    }
}
