// Delays.
use crate::{case, number};
use delays::{CodeRefusal, DelayRefusal};

// Four codes: the delays that they mean, or the refusal.
pub fn meant(case: &[u8]) -> u64 {
    let codes = [
        case::short(case, 0),
        case::short(case, 1),
        case::short(case, 2),
        case::short(case, 3),
    ];
    match meanings::meaning(codes) {
        Ok(delays) => number::packed(delays),
        Err(CodeRefusal::TooLarge(subframe)) => number::refused(2, subframe),
    }
}

// Four delays: their codes, or the refusal.
pub fn coded(case: &[u8]) -> u64 {
    let twelfths = [
        case::word(case, 0),
        case::word(case, 2),
        case::word(case, 4),
        case::word(case, 6),
    ];
    match coder::codes(twelfths) {
        Ok(codes) => number::packed(codes),
        Err(DelayRefusal::NotListed(subframe)) => number::refused(4, subframe),
        Err(DelayRefusal::OutsideWindow(subframe)) => number::refused(5, subframe),
    }
}
