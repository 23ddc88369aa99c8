// What salvaging writes and answers, as definitions with their laws: what can be kept of a damaged recording as a good one, and what
// was changed. Here is the answer; `restorer` writes.
#![tactic(auto)]

ghost use Rattle.std.specs.Prelude.{◌≡◌};
ghost use Rattle.salvage.specs.Steps.{changes_by, answer_by};

// What was changed: how many bytes were dropped and from where, how many frames were kept, where the end block was written, and the
// length of the result.
#[derive(Clone, Copy)]
pub struct Changes {
    pub dropped: usize,
    pub from: usize,
    pub frames: u32,
    pub end: usize,
    pub long: usize,
}

// A sound recording, unchanged, or a mended one with its changes.
#[derive(Clone, Copy)]
pub enum Salvaged {
    Sound,
    Mended(Changes),
}

// What is answered where the end block was written at a place.
pub fn answer(long: usize, frames: u32, end: u32, sound: bool) -> Salvaged
    ensures { result ≡ answer_by long frames end sound }
{
    if sound {
        return Salvaged::Sound;
    }
    Salvaged::Mended(changes_by(long, frames, end))
}

// What was changed; from a place past the last byte on nothing was dropped.
fn changes_by(long: usize, frames: u32, end: u32) -> Changes
    ensures { result ≡ changes_by long frames end }
{
    let at = end as usize;
    Changes {
        dropped: long.saturating_sub(at),
        from: at,
        frames,
        end: at,
        long: at + 10,
    }
}
