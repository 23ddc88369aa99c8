// The ten line spectral parameters of 3.7: what their indices come to in Hz, which `hertz` answers, and the order mark of ten.
// LSP j stands at place j - 1 of a list of ten; all values are 16 bits.
#![tactic(auto)]

ghost use Rattle.std.specs.Prelude.{◌≡◌};
ghost use Rattle.lsp.specs.Order.{mark_of};

// Why ten indices are not put in Hz, with the lowest LSP whose index is too large.
#[derive(Clone, Copy, Debug, PartialEq, Eq)]
pub enum Refusal {
    TooLarge(usize),
}

// The order mark: the lowest j for which LSP j+1 is below LSP j, or 0: so the listing and the results for C tell it, and
// `MarkIsLowest` says it.
pub fn order_mark(hz: [u16; 10]) -> usize
    ensures { result ≡ mark_of hz }
{
    for j in 1..10 {
        if hz[j] < hz[j - 1] {
            return j;
        }
    }
    0
}
