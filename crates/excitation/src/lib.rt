// What the excitation of a subframe is (document 02, K6), as definitions with their laws: the adaptive code, read from the register of
// what went before, and the ternary code, mixed by their gains; and the register after it. Here are the register and the
// refusals; `exciter` makes the excitation.
#![tactic(auto)]

ghost use Rattle.std.specs.Prelude.{◌≡◌};
ghost use Rattle.excitation.specs.Register.{silent_register};
ghost use Rattle.excitation.specs.Outcome.{number_of};

// What went before: 147 whole numbers, the newest last.
#[derive(Clone, Copy)]
pub struct Register {
    pub elements: [i32; 147],
}

impl Register {
    // The register before the first subframe.
    pub fn silent() -> Register
        ensures { result ≡ silent_register }
    {
        Register {
            elements: [0i32; 147],
        }
    }
}

// Why no excitation is made.
#[derive(Clone, Copy, Debug, PartialEq, Eq)]
pub enum Refusal {
    WrongLength,
    TooLarge,
    NotListed,
    NotWhole,
}

impl Refusal {
    // The number of the refusal.
    pub fn refusal_number(self) -> u32
        ensures { result ≡ number_of self }
    {
        match self {
            Refusal::WrongLength => 1,
            Refusal::TooLarge => 2,
            Refusal::NotListed => 4,
            Refusal::NotWhole => 15,
        }
    }
}
