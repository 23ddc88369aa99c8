// What a salvaged recording's changes are told in: a line each, in order, and only where there is such a change. A sound recording has
// none, and a refusal is one line. Lines are laid into a lent buffer as `text` lays words.
#![tactic(auto)]

ghost use Rattle.std.specs.Prelude.{◌≡◌};
ghost use Rattle.text.specs.Laid.{laid, after};
ghost use Rattle.lines.specs.Forms.{form_text};
ghost use Rattle.changes.specs.Telling.{dropped_line, kept_line, end_line, refused_line, dropped_text, changes_text, telling_of};

use kept::Unsalvaged;
use lines::Form;
use salvage::{Changes, Salvaged};

// Lays the lines of a salvaging's answer.
pub fn put(out: &mut [u8], at: usize, salvaged: Result<Salvaged, Unsalvaged>) -> usize
    ensures value { result ≡ after out.old at (telling_of salvaged) }
    ensures out_after { out.new ≡ laid out.old at (telling_of salvaged) }
{
    match salvaged {
        Ok(Salvaged::Sound) => at.min(out.len()),
        Ok(Salvaged::Mended(changes)) => put_changes(out, at, changes),
        Err(why) => lines::put_form(out, at, refused(why.refusal_number())),
    }
}

// Lays the lines of some changes.
fn put_changes(out: &mut [u8], at: usize, changes: Changes) -> usize
    ensures value { result ≡ after out.old at (changes_text changes) }
    ensures out_after { out.new ≡ laid out.old at (changes_text changes) }
{
    let first = put_dropped(out, at, changes.dropped, changes.from);
    let second = lines::put_form(out, first, kept(changes.frames));
    lines::put_form(out, second, end(changes.end))
}

// Lays the first of them, where bytes were dropped.
fn put_dropped(out: &mut [u8], at: usize, bytes: usize, from: usize) -> usize
    ensures value { result ≡ after out.old at (dropped_text bytes from) }
    ensures out_after { out.new ≡ laid out.old at (dropped_text bytes from) }
{
    if bytes == 0 {
        return at.min(out.len());
    }
    lines::put_form(out, at, dropped(bytes, from))
}

// How many bytes were dropped, and from where.
fn dropped(bytes: usize, from: usize) -> Form
    ensures { form_text result ≡ dropped_line bytes from }
{
    Form {
        bytes: *b"dropped \x00 bytes from \x01\n     ",
        size: 23,
        numbers: [bytes as u64, from as u64, 0, 0, 0, 0, 0, 0],
    }
}

// How many frames were kept.
fn kept(frames: u32) -> Form
    ensures { form_text result ≡ kept_line frames }
{
    Form {
        bytes: *b"kept \x00 frames\n              ",
        size: 14,
        numbers: [frames as u64, 0, 0, 0, 0, 0, 0, 0],
    }
}

// Where the end block was written.
fn end(place: usize) -> Form
    ensures { form_text result ≡ end_line place }
{
    Form {
        bytes: *b"end written at \x00\n           ",
        size: 17,
        numbers: [place as u64, 0, 0, 0, 0, 0, 0, 0],
    }
}

// A refusal, which tells nothing beside its number.
fn refused(number: u32) -> Form
    ensures { form_text result ≡ refused_line number }
{
    Form {
        bytes: *b"refused \x00\n                  ",
        size: 10,
        numbers: [number as u64, 0, 0, 0, 0, 0, 0, 0],
    }
}
