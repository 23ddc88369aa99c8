// What a record says: its gains, delays, averages and order mark, from the record and the state before it, with the
// state after. The decoder answers them; here is what they are, the state before the first frame, and what there is without a record.
#![tactic(auto)]

ghost use Rattle.std.specs.Prelude.{◌≡◌};
ghost use Rattle.values.specs.Outcome.{refusal_of};
ghost use Rattle.values.specs.Values.{fresh_state, refused_values, nothing_heard};

// What is kept from frame to frame: the LSPs in Hz of the last frame that was heard, and the SY of the last one that was heard or
// refused with 6; `None` where there was no such frame.
#[derive(Clone, Copy)]
pub struct State {
    pub hz: Option<[u16; 10]>,
    pub last: Option<u16>,
}

impl State {
    // The state before the first frame.
    pub fn fresh() -> State
        ensures { result ≡ fresh_state }
    {
        State {
            hz: None,
            last: None,
        }
    }
}

// Whether a record has values, or its refusal with what it tells, or that there was no record.
#[derive(Clone, Copy)]
pub enum Outcome {
    Heard,
    TooLarge(usize),
    Expansion,
    Nothing,
}

impl Outcome {
    // The number of the refusal; 0 where there is none.
    pub fn refusal_number(self) -> u32
        ensures { result ≡ refusal_of self }
    {
        match self {
            Outcome::Heard => 0,
            Outcome::TooLarge(_) => 2,
            Outcome::Expansion => 6,
            Outcome::Nothing => 0,
        }
    }
}

// What a record says, subframe 1 first; PG in thousandths, delays in twelfths of a sample, averages in eighths of a Hz.
// Where nothing was heard all are 0: the outcome stands beside the values, and is no Result of them, since `NothingStays` and the edits
// `refused_is_marked` and `nothing_told_as_heard` speak of values without a record.
#[derive(Clone, Copy)]
pub struct Values {
    pub outcome: Outcome,
    pub cg: [i32; 4],
    pub pg: [i32; 4],
    pub delays: [u16; 4],
    pub averages: [u32; 40],
    pub mark: usize,
    pub state: State,
}

impl Values {
    // What there is where there is no record.
    pub fn nothing(before: State) -> Values
        ensures { result ≡ nothing_heard before }
    {
        Values::refused(Outcome::Nothing, before)
    }

    // What a refused record gets, and what there is where there is none: nothing but the outcome and the state after.
    pub fn refused(outcome: Outcome, after: State) -> Values
        ensures { result ≡ refused_values outcome after }
    {
        Values {
            outcome,
            cg: [0i32; 4],
            pg: [0i32; 4],
            delays: [0u16; 4],
            averages: [0u32; 40],
            mark: 0,
            state: after,
        }
    }
}
