// The decoder: a record and the state before it, to what the record says and the state after.
// A record with an index too large is refused, and leaves the state as it came; one whose SP is 1 is refused, and leaves its SY there.
#![tactic(auto)]

ghost use Rattle.std.specs.Prelude.{◌≡◌};
ghost use Rattle.values.specs.Values.{sync_state, values_of};

use record::Record;
use values::{Outcome, State, Values};

// The values of a record, given the state before it; or its refusal, the lowest number first.
pub fn values_of(r: Record, before: State) -> Values
    ensures { result ≡ values_of r before }
{
    let sp = r.sp;
    if let Some(field) = r.too_large() {
        return Values::refused(Outcome::TooLarge(field), before);
    }
    if sp != 0 {
        return Values::refused(Outcome::Expansion, sync_kept(before, r));
    }
    heard::heard_values(r, before)
}

// The state after a record that is refused for its SP: its SY is kept, and nothing else of it.
fn sync_kept(before: State, r: Record) -> State
    ensures { result ≡ sync_state before r.sy }
{
    let hz = before.hz;
    State {
        hz,
        last: Some(r.sy),
    }
}
