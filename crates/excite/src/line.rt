// A line, laid into a buffer and written.
use blocks::Cause;
use lines::{Form, Line};
use std::io::{self, Write};

// The line of a refused recording.
pub fn refused(out: &mut impl Write, cause: Cause) -> io::Result<()> {
    let mut bytes = [0; 64];
    let end = lines::put(&mut bytes, 0, Line::Refused(cause));
    out.write_all(&bytes[..end])
}

// `K refused N`.
pub fn frame_refused(out: &mut impl Write, k: u32, number: u32) -> io::Result<()> {
    formed(
        out,
        Form {
            bytes: *b"\x00 refused \x01\n                ",
            size: 12,
            numbers: [k as u64, number as u64, 0, 0, 0, 0, 0, 0],
        },
    )
}

// `K S refused N`.
pub fn subframe_refused(out: &mut impl Write, k: u32, n: u32, number: u32) -> io::Result<()> {
    formed(
        out,
        Form {
            bytes: *b"\x00 \x01 refused \x02\n              ",
            size: 14,
            numbers: [k as u64, n as u64, number as u64, 0, 0, 0, 0, 0],
        },
    )
}

// A line that is a form.
fn formed(out: &mut impl Write, form: Form) -> io::Result<()> {
    let mut bytes = [0; 64];
    let end = lines::put_form(&mut bytes, 0, form);
    out.write_all(&bytes[..end])
}

// `K S e1 .. e60`.
pub fn subframe(out: &mut impl Write, k: u32, n: u32, elements: &[i32]) -> io::Result<()> {
    let mut bytes = [0; 1024];
    let named = lines::put_form(
        &mut bytes,
        0,
        Form {
            bytes: *b"\x00 \x01                         ",
            size: 3,
            numbers: [k as u64, n as u64, 0, 0, 0, 0, 0, 0],
        },
    );
    let told = decimals::put_list(&mut bytes, named, elements);
    let end = text::put_byte(&mut bytes, told, b'\n');
    out.write_all(&bytes[..end])
}
