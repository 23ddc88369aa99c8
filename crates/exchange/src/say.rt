// What is printed: numbers, each followed by a space, which is a piece of its own.
use std::io::{self, Write};

// A number.
pub fn number(out: &mut impl Write, n: usize) -> io::Result<()> {
    write!(out, "{n} ")
}

// A result of the C boundary, in twelve places, as one piece.
pub fn result(out: &mut impl Write, x: i32) -> io::Result<()> {
    let mut places = [b' '; 12];
    decimals::put_signed(&mut places, 0, x);
    out.write_all(&places)
}

// Numbers, one after the other.
pub fn numbers<N: Copy + Into<u64>>(out: &mut impl Write, xs: &[N]) -> io::Result<()> {
    for x in xs {
        let n: u64 = (*x).into();
        write!(out, "{n} ")?;
    }
    Ok(())
}

// Results, one after the other.
pub fn results(out: &mut impl Write, xs: &[i32]) -> io::Result<()> {
    for x in xs {
        result(out, *x)?;
    }
    Ok(())
}
