// Lists one recording from standard input: the listing, or the one line of its refusal, to standard output.
#![tactic(auto)]

use listing::Unlisted;
use std::env::{Env, FillError};
use std::io::{self, Write};

// The program takes no argument: with one it says how it is used, and reads nothing.
fn main(rt: HostRuntime) {
    if !matches!(rt.arg(1, &mut []), Err(FillError::NotPresent)) {
        let _ = rt
            .stderr()
            .write_all(b"usage: oatlantern-list <recording\n");
        return;
    }
    list_input(&rt);
}

// A recording has at most 65,536 bytes: one byte more is too long, however many follow it.
fn list_input(rt: &HostRuntime) {
    let mut recording = [0u8; 65537];
    let Ok(n) = input::read_all(&mut rt.stdin(), &mut recording) else {
        let _ = rt
            .stderr()
            .write_all(b"oatlantern-list: standard input cannot be read\n");
        return;
    };
    if list(&mut rt.stdout(), &recording[..n]).is_err() {
        let _ = rt
            .stderr()
            .write_all(b"oatlantern-list: standard output cannot be written\n");
    }
}

// Prints the listing of any bytes.
fn list(out: &mut impl Write, s: &[u8]) -> io::Result<()> {
    let mut text = [0; 131072];
    match listing::list(s, &mut text) {
        Err(Unlisted::WrongLength) => Ok(()),
        Ok(end) => out.write_all(&text[..end]),
    }
}
