// Corrections: what one is told as, and those that no frame gives.
use crate::say;
use frame::Correction;
use std::io::{self, Write};

// Its number, and its case: 0 clean, 1 a parity hit, 2 a data hit with its field and bit.
pub fn told(out: &mut impl Write, correction: Correction) -> io::Result<()> {
    say::number(out, parity::number_for(correction))?;
    match correction {
        Correction::Clean => say::number(out, 0),
        Correction::Parity(_) => say::number(out, 1),
        Correction::Data(f, i) => {
            say::number(out, 2)?;
            write!(out, "{f} {i} ")
        }
    }
}

// The correction that any number means, and the number of any data hit.
pub fn any(out: &mut impl Write, n: usize) -> io::Result<()> {
    told(out, parity::correction_of(n))?;
    say::number(out, parity::number_for(Correction::Data(n % 256, n / 256)))
}

// A list of indices by field after any data hit.
pub fn mend(out: &mut impl Write, s: &[u8], n: usize) -> io::Result<()> {
    let mended = parity::mend(taken(s), Correction::Data(n % 256, n / 256));
    say::numbers(out, &mended)
}

// The list, two bytes for each number, the lower first; what is not there is 0.
fn taken(s: &[u8]) -> [u16; 29] {
    let mut fields = [0u16; 29];
    for (k, field) in fields.iter_mut().enumerate() {
        *field = u16::from_le_bytes([byte(s, 2 * k), byte(s, 2 * k + 1)]);
    }
    fields
}

// A byte; one that is not there is 0.
pub fn byte(s: &[u8], i: usize) -> u8 {
    s.get(i).copied().unwrap_or(0)
}
