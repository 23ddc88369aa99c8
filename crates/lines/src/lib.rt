// The lines of a listing, and any line that is a form and its numbers, laid into a lent buffer as `text` lays words: each put answers
// the position after its line, held at the buffer's end. What has no room is left out, and no other byte changes.
#![tactic(auto)]

ghost use Rattle.std.specs.Prelude.{◌≡◌, [], ◌∷◌};
ghost use Rattle.text.specs.Laid.{laid, after};
ghost use Rattle.lines.specs.Lines.{head_line, letter_of, frame_line, last_line, numbers_shown};
ghost use Rattle.lines.specs.Lines.{refusal_line, refused_line, line_of};
ghost use Rattle.lines.specs.Forms.{form_text};

use blocks::{Cause, Heading, Told};
use frame::Correction;

// What is said of a frame: its number, what correction did, and its order mark, SY and four delays; or, where it is not 0, the
// refusal of its values.
#[derive(Clone, Copy)]
pub struct Said {
    pub number: u32,
    pub correction: Correction,
    pub refusal: u32,
    pub mark: usize,
    pub sy: u16,
    pub first: u16,
    pub second: u16,
    pub third: u16,
    pub fourth: u16,
}

// A line: the first, with how many frames follow it; that of a frame; the last, with the repaired frames and the breaks; and the
// one line of a refused recording.
#[derive(Clone, Copy)]
pub enum Line {
    Head(Heading, u32),
    Frame(Said),
    Last(u32, u32),
    Refused(Cause),
}

// A line as it is to be laid: the first bytes of its form, in which each byte below 8 stands for the number at that place.
#[derive(Clone, Copy)]
pub struct Form {
    pub bytes: [u8; 28],
    pub size: usize,
    pub numbers: [u64; 8],
}

// Lays a line.
pub fn put(out: &mut [u8], at: usize, line: Line) -> usize
    ensures value { result ≡ after out.old at (line_of line) }
    ensures out_after { out.new ≡ laid out.old at (line_of line) }
{
    put_form(out, at, form_of(line))
}

// Lays a form: each of its bytes, or the number that it stands for.
pub fn put_form(out: &mut [u8], at: usize, form: Form) -> usize
    ensures value { result ≡ after out.old at (form_text form) }
    ensures out_after { out.new ≡ laid out.old at (form_text form) }
{
    let size = form.size.min(28);
    let mut end = at.min(out.len());
    for &c in &form.bytes[..size] {
        if c < 8 {
            end = decimals::put_number(out, end, form.numbers[c as usize]);
        } else {
            end = text::put_byte(out, end, c);
        }
    }
    end
}

// The form of a line.
fn form_of(line: Line) -> Form
    ensures { form_text result ≡ line_of line }
{
    match line {
        Line::Head(heading, frames) => head(heading, frames),
        Line::Frame(said) => frame(said),
        Line::Last(repaired, breaks) => last(repaired, breaks),
        Line::Refused(cause) => refused(cause),
    }
}

// The first line.
fn head(heading: Heading, frames: u32) -> Form
    ensures { form_text result ≡ head_line heading frames }
{
    let unit = heading.unit as u64;
    let number = heading.number as u64;
    Form {
        bytes: *b"unit \x00 recording \x01 frames \x02\n",
        size: 28,
        numbers: [unit, number, frames as u64, 0, 0, 0, 0, 0],
    }
}

// The line of a frame.
fn frame(said: Said) -> Form
    ensures { form_text result ≡ frame_line said }
{
    let number = said.number as u64;
    let correction = said.correction;
    let corrected = parity::number_for(correction) as u64;
    let letter = letter_of(correction);
    let refusal = said.refusal as u64;
    if refusal != 0 {
        let mut bytes = *b"\x00 \x01 . refused \x02\n            ";
        bytes[4] = letter;
        return Form {
            bytes,
            size: 16,
            numbers: [number, corrected, refusal, 0, 0, 0, 0, 0],
        };
    }
    let mut bytes = *b"\x00 \x01 . \x02 \x03 \x04 \x05 \x06 \x07\n          ";
    bytes[4] = letter;
    Form {
        bytes,
        size: 18,
        numbers: [
            number,
            corrected,
            said.mark as u64,
            said.sy as u64,
            said.first as u64,
            said.second as u64,
            said.third as u64,
            said.fourth as u64,
        ],
    }
}

// The letter of a correction: clean, a parity bit hit, a data bit inverted.
fn letter_of(correction: Correction) -> u8
    ensures { result ∷ [] ≡ letter_of correction }
{
    match correction {
        Correction::Clean => b'c',
        Correction::Parity(_) => b'p',
        Correction::Data(_, _) => b'd',
    }
}

// The last line.
fn last(repaired: u32, breaks: u32) -> Form
    ensures { form_text result ≡ last_line repaired breaks }
{
    Form {
        bytes: *b"repaired \x00 breaks \x01\n        ",
        size: 20,
        numbers: [repaired as u64, breaks as u64, 0, 0, 0, 0, 0, 0],
    }
}

// The one line of a recording that is refused.
fn refused(cause: Cause) -> Form
    ensures { form_text result ≡ refused_line cause }
{
    let number = refusals::refusal_number(cause);
    refusal(number, refusals::tells(cause))
}

// The line of a refusal by its number, with what it tells.
fn refusal(number: u32, told: Told) -> Form
    ensures { form_text result ≡ refusal_line number (numbers_shown told) }
{
    match told {
        Told::Nothing => refusal_at(number, 65536),
        Told::Place(p) => refusal_at(number, p),
        Told::PlaceAndSize(p, size) => refusal_with_size(number, p, size),
    }
}

// The same with a place alone.
fn refusal_at(number: u32, place: usize) -> Form
    ensures { form_text result ≡ refusal_line number (place ∷ []) }
{
    Form {
        bytes: *b"refused \x00 at \x01\n             ",
        size: 15,
        numbers: [number as u64, place as u64, 0, 0, 0, 0, 0, 0],
    }
}

// The same with a place and a size.
fn refusal_with_size(number: u32, place: usize, size: u32) -> Form
    ensures { form_text result ≡ refusal_line number (place ∷ size ∷ []) }
{
    Form {
        bytes: *b"refused \x00 at \x01 \x02\n           ",
        size: 17,
        numbers: [number as u64, place as u64, size as u64, 0, 0, 0, 0, 0],
    }
}
