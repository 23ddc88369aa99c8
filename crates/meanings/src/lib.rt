// What the codes of four subframes mean: their delays in twelfths (3.5.4, 3.5.5). The table is taken once in a call and lent on.
#![tactic(auto)]

ghost use Rattle.std.specs.Prelude.{◌≡◌, ◌≤◌};
ghost use Rattle.laws.specs.Tabulate.{tabulate};
ghost use Rattle.delays.specs.Table.{twelfths_of, rank_of};
ghost use Rattle.delays.specs.Codes.{after_of, meant_by};
ghost use Rattle.delays.specs.Steps.{delays_meant};

use delays::CodeRefusal;

mod tables;

// The four delays in twelfths that four codes mean, or the refusal, subframe by subframe.
pub fn meaning(codes: [u16; 4]) -> Result<[u16; 4], CodeRefusal>
    ensures { result ≡ meant_by codes }
{
    let [first, second, third, fourth] = codes;
    if 255 < first {
        return Err(CodeRefusal::TooLarge(1));
    }
    if 63 < second {
        return Err(CodeRefusal::TooLarge(2));
    }
    if 255 < third {
        return Err(CodeRefusal::TooLarge(3));
    }
    if 63 < fourth {
        return Err(CodeRefusal::TooLarge(4));
    }
    Ok(delays_meant(first, second, third, fourth))
}

// The four delays that codes within their bits mean.
fn delays_meant(first: u16, second: u16, third: u16, fourth: u16) -> [u16; 4]
    requires first_bound { (first ≤ 255) × (second ≤ 63) }
    requires third_bound { (third ≤ 255) × (fourth ≤ 63) }
    ensures { result ≡ delays_meant first second third fourth }
{
    let ranks = &tables::RANKS;
    [
        delay_of(ranks, first),
        delay_after(ranks, first, second),
        delay_of(ranks, third),
        delay_after(ranks, third, fourth),
    ]
}

// The delay in twelfths that a code of subframe 1 or 3 means.
fn delay_of(ranks: &[u8; 256], code: u16) -> u16
    requires ranks_value { ranks.now ≡ tabulate rank_of 256 }
    requires code_bound { code ≤ 255 }
    ensures { result ≡ twelfths_of (rank_of code) }
{
    delays::twelfths(ranks[usize::from(code)])
}

// The delay in twelfths that a code of subframe 2 or 4 means after the code before it.
fn delay_after(ranks: &[u8; 256], code: u16, step: u16) -> u16
    requires ranks_value { ranks.now ≡ tabulate rank_of 256 }
    requires code_bound { (code ≤ 255) × (step ≤ 63) }
    ensures { result ≡ twelfths_of (after_of (rank_of code) step) }
{
    let rank = ranks[usize::from(code)];
    let next = delays::base(u16::from(rank)) + step;
    delays::twelfths(next as u8)
}
