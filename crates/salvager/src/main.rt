// Salvages one recording from standard input: what can be kept of it, as a good recording, to standard output, and what was changed, a
// line each, to standard error. A refusal is one line there, and nothing is written.
#![tactic(auto)]

ghost use Rattle.std.specs.Prelude.{◌≡◌};
ghost use Rattle.salvage.specs.Salvaging.{long_of};

use kept::Unsalvaged;
use salvage::Salvaged;
use std::env::{Env, FillError};
use std::io::{self, Write};

// The program takes no argument: with one it says how it is used, and reads nothing.
fn main(rt: HostRuntime) {
    if !matches!(rt.arg(1, &mut []), Err(FillError::NotPresent)) {
        let _ = rt
            .stderr()
            .write_all(b"usage: oatlantern-salvage <recording >salvaged\n");
        return;
    }
    salvage_input(&rt);
}

// A recording has at most 65,536 bytes: one byte more is too long, however many follow it.
fn salvage_input(rt: &HostRuntime) {
    let mut recording = [0u8; 65537];
    let Ok(n) = input::read_all(&mut rt.stdin(), &mut recording) else {
        let _ = rt
            .stderr()
            .write_all(b"oatlantern-salvage: standard input cannot be read\n");
        return;
    };
    match salvage(&mut rt.stdout(), &recording[..n]) {
        Err(_) => {
            let _ = rt
                .stderr()
                .write_all(b"oatlantern-salvage: standard output cannot be written\n");
        }
        Ok(salvaged) => {
            let _ = tell(&mut rt.stderr(), salvaged);
        }
    }
}

// Salvages any bytes: writes the result whole, and answers what was changed.
fn salvage(out: &mut impl Write, s: &[u8]) -> io::Result<Result<Salvaged, Unsalvaged>> {
    let mut result = [0; 65536];
    let salvaged = restorer::salvage(s, &mut result);
    let long = length(s.len(), salvaged);
    out.write_all(&result[..long])?;
    Ok(salvaged)
}

// The length of the result of so many bytes; a refusal has none.
fn length(long: usize, salvaged: Result<Salvaged, Unsalvaged>) -> usize
    ensures { result ≡ long_of long salvaged }
{
    match salvaged {
        Ok(Salvaged::Sound) => long,
        Ok(Salvaged::Mended(changes)) => changes.long,
        Err(_) => 0,
    }
}

// Tells what was changed.
fn tell(out: &mut impl Write, salvaged: Result<Salvaged, Unsalvaged>) -> io::Result<()> {
    let mut lines = [0u8; 128];
    let end = changes::put(&mut lines, 0, salvaged);
    out.write_all(&lines[..end])
}
