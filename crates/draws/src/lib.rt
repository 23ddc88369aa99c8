// The draws that the code book of 3.3 was made of: the function `random` of 3.3.1, a draw at a time.
// A generator is five kept numbers and two positions in them; a draw is kept at the first, and both move one down.
#![tactic(auto)]

ghost use Rattle.std.specs.Prelude.{◌≡◌, ◌≤◌};
ghost use Rattle.draws.specs.Draw.{fresh_generator, draw_of, position_of, moved_of};

// The five kept numbers y of 3.3.1 and two positions in them: the first is k, where each draw is kept, the second j.
#[derive(Clone, Copy)]
pub struct Generator {
    pub kept: [i16; 5],
    pub first: u16,
    pub second: u16,
}

// A number drawn, and the generator after it.
#[derive(Clone, Copy)]
pub struct Draw {
    pub value: i16,
    pub generator: Generator,
}

impl Generator {
    // The generator as the standard starts it.
    pub fn fresh() -> Generator
        ensures { result ≡ fresh_generator }
    {
        Generator {
            kept: [-21161, -8478, 30892, -10216, 16950],
            first: 5,
            second: 2,
        }
    }

    // The next draw.
    pub fn draw(self) -> Draw
        ensures { result ≡ draw_of self }
    {
        let mut kept = self.kept;
        let first = position(self.first);
        let second = position(self.second);
        let k = usize::from(first - 1);
        let j = usize::from(second - 1);
        let value = kept[k].wrapping_add(kept[j]);
        kept[k] = value;
        let generator = Generator {
            kept,
            first: moved(first),
            second: moved(second),
        };
        Draw { value, generator }
    }
}

// The position that a number counts as.
fn position(p: u16) -> u16
    ensures value { result ≡ position_of p }
    ensures lower_bound { (1 ≤ result) × (result ≤ 5) }
{
    if p % 5 == 0 { 5 } else { p % 5 }
}

// The position before a position, the fifth before the first.
fn moved(p: u16) -> u16
    ensures { result ≡ moved_of p }
{
    if p <= 1 { 5 } else { p - 1 }
}
