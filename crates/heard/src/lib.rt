// What is heard of a record that is not refused, after the state before it: gains, delays, averages, mark and the state after.
// An index that is too large has no value: its gain is 0, and so are all delays or all LSPs in Hz.
#![tactic(auto)]

ghost use Rattle.std.specs.Prelude.{◌≡◌, ◌<◌};
ghost use Rattle.gains.specs.Gains.{gain_of};
ghost use Rattle.values.specs.Values.{value_in, indices_at, gains_of, delays_of, heard_state, previous_of, heard_values};

use record::Record;
use values::{Outcome, State, Values};

// The values of a record as if it were not refused. Its LSPs are used as they are, in order or not.
pub fn heard_values(r: Record, before: State) -> Values
    ensures { result ≡ heard_values r before }
{
    let cg = gains_in(&gains::CG, in_subframes(r, CG));
    let pg = gains_in(&gains::PG, in_subframes(r, PG));
    let delays = delays_of(r);
    let used = hertz::in_hertz(r.lsp).unwrap_or([0; 10]);
    let previous = previous_of(before, used);
    let averages = averages::averages(previous, used);
    let mark = lsp::order_mark(used);
    let state = state_after(used, r.sy);
    Values {
        outcome: Outcome::Heard,
        cg,
        pg,
        delays,
        averages,
        mark,
        state,
    }
}

// Where PD, PG and CG stand among the four indices of a subframe. CI, the third, has no value here.
const PD: usize = 0;

const PG: usize = 1;

const CG: usize = 3;

// The index at one place of each subframe's four.
fn in_subframes(r: Record, place: usize) -> [u16; 4]
    requires { place < 4 }
    ensures { result ≡ indices_at r place }
{
    let s = r.subframes;
    [s[place], s[4 + place], s[8 + place], s[12 + place]]
}

// The four delays of a record in twelfths.
fn delays_of(r: Record) -> [u16; 4]
    ensures { result ≡ delays_of r }
{
    meanings::meaning(in_subframes(r, PD)).unwrap_or([0; 4])
}

// The gains of four indices in a table.
fn gains_in(table: &[i16; 32], indices: [u16; 4]) -> [i32; 4]
    ensures { result ≡ gains_of table.now indices }
{
    let a = gain_in(table, indices[0]);
    let b = gain_in(table, indices[1]);
    let c = gain_in(table, indices[2]);
    let d = gain_in(table, indices[3]);
    [a, b, c, d]
}

// The gain of an index in a table, 0 for an index too large.
fn gain_in(table: &[i16; 32], index: u16) -> i32
    ensures { result ≡ value_in (gain_of table.now index) }
{
    gains::gain_at(table, index).unwrap_or(0)
}

// The previous frame's LSPs in Hz, or those of this frame where there was no previous one.
fn previous_of(before: State, used: [u16; 10]) -> [u16; 10]
    ensures { result ≡ previous_of before used }
{
    before.hz.unwrap_or(used)
}

// The state after a frame of which these LSPs were used, with this SY.
fn state_after(hz: [u16; 10], sy: u16) -> State
    ensures { result ≡ heard_state hz sy }
{
    State {
        hz: Some(hz),
        last: Some(sy),
    }
}
