// The adaptive code's delays: 256 of them, known by their rank, each with its twelfths of a sample and its printed byte
// (3.5.4), and the window of 64 ranks in which subframes 2 and 4 code theirs (3.5.5).
// `coder` answers the codes of delays, `meanings` the delays of codes.
#![tactic(auto)]

ghost use Rattle.std.specs.Prelude.{◌≡◌, ◌-◌, ◌≤◌};
ghost use Rattle.delays.specs.Table.{twelfths_of, rank_with};
ghost use Rattle.delays.specs.Codes.{base_of, rank_found};
ghost use Rattle.delays.specs.Steps.{rank_in};

// The lowest rank of the window after a rank.
pub fn base(rank: u16) -> u16
    ensures { result ≡ base_of rank }
{
    if rank < 31 {
        return 0;
    }
    if 223 < rank {
        return 192;
    }
    rank - 31
}

// The delay of a rank in twelfths, by the four stretches: from 20 samples in thirds, from 26 in quarters, from 34 in
// thirds, from 80 in whole samples. Every byte is a rank.
pub fn twelfths(rank: u8) -> u16
    ensures { result ≡ twelfths_of rank }
{
    let wide = rank as u16;
    if wide < 18 {
        return 240 + 4 * wide;
    }
    if wide < 50 {
        return 312 + 3 * (wide - 18);
    }
    if wide < 188 {
        return 408 + 4 * (wide - 50);
    }
    960 + 12 * (wide - 188)
}

// The rank of a delay in twelfths, back through the same stretches, if the list has such a delay.
pub fn rank_with(delay: u32) -> Option<u8>
    ensures { result ≡ rank_found (rank_with delay) }
{
    if delay < 240 {
        return None;
    }
    if delay < 312 {
        return rank_in(delay, 240, 4, 0);
    }
    if delay < 408 {
        return rank_in(delay, 312, 3, 18);
    }
    if delay < 960 {
        return rank_in(delay, 408, 4, 50);
    }
    if delay < 1776 {
        return rank_in(delay, 960, 12, 188);
    }
    None
}

// The rank of a delay in the stretch that starts at a delay and a rank and goes on by a step, if it is on a step.
fn rank_in(delay: u32, from: u32, step: u32, first: u32) -> Option<u8>
    requires from_le_delay { (from ≤ delay) × (delay - from ≤ 1000) }
    requires le_step { (1 ≤ step) × (first ≤ 256) }
    ensures { result ≡ rank_found (rank_in from step first delay) }
{
    let past = delay - from;
    if past % step != 0 {
        return None;
    }
    u8::try_from(first + past / step).ok()
}

// Why four codes mean no delays, with the first such subframe.
#[derive(Clone, Copy, Debug, PartialEq, Eq)]
pub enum CodeRefusal {
    TooLarge(u16),
}

// Why four delays have no codes, with the first such subframe.
#[derive(Clone, Copy, Debug, PartialEq, Eq)]
pub enum DelayRefusal {
    NotListed(u16),
    OutsideWindow(u16),
}
