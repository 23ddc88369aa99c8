// What a record says, and where the frames of a recording stand, for C, as include/oatlantern.h declares them. A state is lent as
// numbers: three of sync, whether a frame was heard, whether there was a last SY, and that SY; and the ten LSPs in Hz.
#![tactic(auto)]

ghost use Rattle.std.specs.Prelude.{◌≡◌, [], ◌∷◌, ◌≤◌, pos};
ghost use Rattle.blocks.specs.Frames.{span_of};
ghost use Rattle.hearer.specs.Hearing.{if_there, state_in, sync_of, hz_of, values_in, refusal_in, hear_result, if_heard, if_kept};

use values::{State, Values};

// Hears a record after a state: its order mark, with the values and the state after it; or minus a refusal, which leaves all but the
// state after 6.
pub fn oatlantern_hear_record(
    record: &[u8],
    sync: &mut [u16; 3],
    hz: &mut [u16; 10],
    cg: &mut [i32; 4],
    pg: &mut [i32; 4],
    delays: &mut [u16; 4],
    averages: &mut [u32; 40],
) -> i32
    ensures value { result ≡ hear_result (refusal_in «record».now sync.old hz.old) (values_in «record».now sync.old hz.old) }
    ensures sync_after { sync.new ≡ if_kept (refusal_in «record».now sync.old hz.old) (sync_of (values_in «record».now sync.old hz.old).state) sync.old }
    ensures hz_after { hz.new ≡ if_kept (refusal_in «record».now sync.old hz.old) (hz_of (values_in «record».now sync.old hz.old).state hz.old) hz.old }
    ensures cg_after { cg.new ≡ if_heard (refusal_in «record».now sync.old hz.old) (values_in «record».now sync.old hz.old).cg cg.old }
    ensures pg_after { pg.new ≡ if_heard (refusal_in «record».now sync.old hz.old) (values_in «record».now sync.old hz.old).pg pg.old }
    ensures delays_after { delays.new ≡ if_heard (refusal_in «record».now sync.old hz.old) (values_in «record».now sync.old hz.old).delays delays.old }
    ensures averages_after { averages.new ≡ if_heard (refusal_in «record».now sync.old hz.old) (values_in «record».now sync.old hz.old).averages averages.old }
{
    let Some(indices) = pairs::take(record) else {
        return -1;
    };
    let before = state_in(sync, hz);
    let values = decoder::values_of(indices, before);
    let outcome = values.outcome;
    let number = outcome.refusal_number();
    if number == 2 {
        return -2;
    }
    keep(values.state, sync, hz);
    if number == 6 {
        return -6;
    }
    lay(values, cg, pg, delays, averages)
}

// A state out of its numbers.
fn state_in(sync: &[u16; 3], hz: &[u16; 10]) -> State
    ensures { result ≡ state_in sync.now hz.now }
{
    State {
        hz: if_there(sync[0], *hz),
        last: if_there(sync[1], sync[2]),
    }
}

// What is there, by a number that says whether it is.
fn if_there<A: Copy>(there: u16, x: A) -> Option<A>
    ensures { result ≡ if_there there x }
{
    if there == 0 { None } else { Some(x) }
}

// A state into its numbers.
fn keep(state: State, sync: &mut [u16; 3], hz: &mut [u16; 10])
    ensures sync_after { sync.new ≡ sync_of state }
    ensures hz_after { hz.new ≡ hz_of state hz.old }
{
    *hz = state.hz.unwrap_or(*hz);
    *sync = sync_of(state);
}

// The three numbers of sync.
fn sync_of(state: State) -> [u16; 3]
    ensures { result ≡ sync_of state }
{
    let begun = u16::from(state.hz.is_some());
    match state.last {
        None => [begun, 0, 0],
        Some(sy) => [begun, 1, sy],
    }
}

// The values of a record that is heard into the arrays, and its order mark.
fn lay(
    values: Values,
    cg: &mut [i32; 4],
    pg: &mut [i32; 4],
    delays: &mut [u16; 4],
    averages: &mut [u32; 40],
) -> i32
    requires { values.mark ≤ 9 }
    ensures value { result ≡ pos values.mark }
    ensures cg_after { cg.new ≡ values.cg }
    ensures pg_after { pg.new ≡ values.pg }
    ensures delays_after { delays.new ≡ values.delays }
    ensures averages_after { averages.new ≡ values.averages }
{
    let first = values.cg;
    *cg = first;
    let second = values.pg;
    *pg = second;
    let third = values.delays;
    *delays = third;
    let fourth = values.averages;
    *averages = fourth;
    values.mark as i32
}

// Where voice block k of a recording stands: its first byte and the one after its last, or 0 and 0.
pub fn oatlantern_voice_block(recording: &[u8], k: usize, span: &mut [usize; 2])
    ensures { span.new ≡ (span_of recording.now k).from ∷ (span_of recording.now k).to ∷ [] }
{
    let found = voices::voice_span(recording, k);
    *span = [found.from, found.to];
}
