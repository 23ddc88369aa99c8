// LSPs.
use crate::{case, number};
use lsp::Refusal;

// Ten previous LSPs in Hz and ten present indices: the mark or the refusal, and the averages of the Hz that are answered.
pub fn number(case: &[u8]) -> u64 {
    let previous = case::ten(case, 0);
    let present = hertz::in_hertz(case::ten(case, 10));
    let first = match present {
        Err(Refusal::TooLarge(field)) => number::refused(2, (field % 65536) as u16),
        Ok(hz) => lsp::order_mark(hz) as u64,
    };
    as_one(
        averages::averages(previous, present.unwrap_or([0; 10])),
        first,
    )
}

// Forty numbers as one.
fn as_one(averages: [u32; 40], start: u64) -> u64 {
    let mut sum = start;
    for average in &averages {
        sum = number::with(sum, u64::from(*average));
    }
    sum
}
