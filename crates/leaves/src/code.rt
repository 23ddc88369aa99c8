// Codes and draws.
use crate::{case, gain, number};
use codebook::Refusal;
use draws::Generator;

// An index and the length of a buffer that holds 1 everywhere before: the refusal and the buffer's elements as one
// number.
pub fn number(case: &[u8]) -> u64 {
    let mut buffer = ones();
    let refusal = written_in(case, &mut buffer);
    as_one(buffer, refusal)
}

// The buffer before.
fn ones() -> [i8; 62] {
    [1; 62]
}

// Writes into the first elements, as many as the case says. Answers the refusal's number.
fn written_in(case: &[u8], buffer: &mut [i8]) -> u64 {
    let long = case::short(case, 1) as usize;
    if buffer.len() < long {
        return 0;
    }
    match codebook::write_code(case::short(case, 0), &mut buffer[..long]) {
        Ok(()) => 0,
        Err(Refusal::WrongLength) => 1,
        Err(Refusal::TooLarge) => 2,
    }
}

// 62 elements as one number.
fn as_one(elements: [i8; 62], start: u64) -> u64 {
    let mut sum = start;
    for element in &elements {
        sum = number::with(sum, sign(*element));
    }
    sum
}

// 0 for an element below 0, 2 for one above, 1 for 0.
fn sign(element: i8) -> u64 {
    if element < 0 {
        return 0;
    }
    if 0 < element {
        return 2;
    }
    1
}

// How far the two positions are from the standard's own, and how many draws: the numbers drawn as one.
pub fn drawn(case: &[u8]) -> u64 {
    let mut generator = start(case::short(case, 0), case::short(case, 1));
    let count = case::short(case, 2);
    let mut sum = 0;
    for _ in 0..count {
        let draw = generator.draw();
        sum = number::with(sum, gain::signed(i32::from(draw.value)));
        generator = draw.generator;
    }
    sum
}

// The standard's own generator with its positions so far on.
fn start(first: u16, second: u16) -> Generator {
    let fresh = Generator::fresh();
    let kept = fresh.kept;
    Generator {
        kept,
        first: fresh.first.wrapping_add(first),
        second: fresh.second.wrapping_add(second),
    }
}
