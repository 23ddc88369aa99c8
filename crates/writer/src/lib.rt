// Writing a frame: an index record to 18 bytes, or a refusal.
#![tactic(auto)]

ghost use Rattle.std.specs.Prelude.{◌≡◌, length};
ghost use Rattle.frame.specs.Answers.{written_of, frame_left};

use frame::Refusal;
use record::Record;

// Writes a record into a lent frame. A refusal writes nothing.
pub fn write(r: Record, frame: &mut [u8]) -> Result<(), Refusal>
    ensures value { result ≡ written_of r (length frame.old) }
    ensures frame_after { frame.new ≡ frame_left r frame.old }
{
    if frame.len() != 18 {
        return Err(Refusal::WrongLength);
    }
    if let Some(field) = r.too_large() {
        return Err(Refusal::TooLarge(field));
    }
    let mark = marks::mark_of(r);
    if mark != 0 {
        return Err(Refusal::Falling(mark));
    }
    if r.sp != 0 {
        return Err(Refusal::Expansion);
    }
    frame.copy_from_slice(&packer::frame_of(r));
    Ok(())
}
