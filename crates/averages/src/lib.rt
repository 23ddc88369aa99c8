// The averages of two frames' LSPs in the four subframes (3.7), in whole eighths of a Hz.
#![tactic(auto)]

ghost use Rattle.std.specs.Prelude.{◌≡◌, ◌≤◌};
ghost use Rattle.lsp.specs.Average.{average_of, averages_of};

// The averages of the four subframes in eighths of a Hz, subframe 1 first.
pub fn averages(previous: [u16; 10], present: [u16; 10]) -> [u32; 40]
    ensures { result ≡ averages_of previous present }
{
    let mut eighths = [0u32; 40];
    for n in 0..4 {
        for i in 0..10 {
            eighths[10 * n + i] = average(n as u32 + 1, previous[i], present[i]);
        }
    }
    eighths
}

// The average of two values in subframe n, in eighths.
fn average(n: u32, previous: u16, present: u16) -> u32
    requires { (1 ≤ n) × (n ≤ 4) }
    ensures { result ≡ average_of n previous present }
{
    (9 - 2 * n) * u32::from(previous) + (2 * n - 1) * u32::from(present)
}
