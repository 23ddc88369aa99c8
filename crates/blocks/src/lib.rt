// The blocks of a recording: what stands at a place of its bytes, why there is no block there, and the types of a walk through them.
#![tactic(auto)]

ghost use Rattle.std.specs.Prelude.{◌≡◌, ◌+◌, ◌≤◌, length};
ghost use Rattle.laws.specs.Bytes.{pair_at, word_at};
ghost use Rattle.blocks.specs.Blocks.{right_size, heading_at, block_at};

// Why a recording is refused, and what is told of it: a place, and of a payload of the wrong size that size too.
#[derive(Clone, Copy, Debug, PartialEq, Eq)]
pub enum Cause {
    TooLong,
    HeaderCut(usize),
    PastEnd(usize),
    WrongSize(usize, u32),
    UnknownKind(usize),
    OutOfTurn(usize),
    EndMissing(usize),
    WrongCount(usize),
    Extra(usize),
}

// What a refusal tells: nothing, a place, or the place of a block and the size of its payload.
#[derive(Clone, Copy)]
pub enum Told {
    Nothing,
    Place(usize),
    PlaceAndSize(usize, u32),
}

// What a head holds.
#[derive(Clone, Copy)]
pub struct Heading {
    pub unit: u32,
    pub number: u32,
}

// A block: a head, a voice block with its payload's size, or an end with the number that it tells.
#[derive(Clone, Copy)]
pub enum Block {
    Head(Heading),
    Voice(usize),
    End(u32),
}

// A walk before the block at `at`: whether the head was passed, what it held and where the voice blocks begin after it, and how
// many frames were passed.
#[derive(Clone, Copy)]
pub struct Walk {
    pub at: usize,
    pub headed: bool,
    pub heading: Heading,
    pub voices: usize,
    pub frames: u32,
}

// What the blocks of a recording come to: the walk before the block at which it ends, and how it ends there, soundly or refused.
#[derive(Clone, Copy)]
pub struct Walked {
    pub walk: Walk,
    pub ending: Result<(), Cause>,
}

// A part of the bytes, from its first to the one after its last.
#[derive(Clone, Copy)]
pub struct Span {
    pub from: usize,
    pub to: usize,
}

// A frame that was found: its first byte, and how many bytes of its voice block come after it.
#[derive(Clone, Copy)]
pub struct Found {
    pub first: usize,
    pub rest: usize,
}

// Two bytes as a number, the lower first.
fn pair(s: &[u8], at: usize) -> u32
    requires { at + 2 ≤ length s.now }
    ensures { result ≡ pair_at s.now at }
{
    u32::from(u16::from_le_bytes([s[at], s[at + 1]]))
}

// Four bytes as a number, the lowest first.
fn word(s: &[u8], at: usize) -> u32
    requires { at + 4 ≤ length s.now }
    ensures { result ≡ word_at s.now at }
{
    u32::from_le_bytes([s[at], s[at + 1], s[at + 2], s[at + 3]])
}

// What stands at any place of any bytes: a block, or why there is none.
pub fn block_at(s: &[u8], at: usize) -> Result<Block, Cause>
    ensures { result ≡ block_at s.now at }
{
    let long = s.len();
    if long <= at {
        return Err(Cause::EndMissing(long));
    }
    if long - at < 6 {
        return Err(Cause::HeaderCut(at));
    }
    let size = word(s, at);
    if long - at - 6 < size as usize {
        return Err(Cause::PastEnd(at));
    }
    block_by_kind(s, at, size)
}

// The same where header and payload are whole, by the kind.
fn block_by_kind(s: &[u8], at: usize, size: u32) -> Result<Block, Cause>
    requires size_value { size ≡ word_at s.now at }
    requires size_in_bounds { at + 6 + size ≤ length s.now }
    ensures { result ≡ block_at s.now at }
{
    let kind = pair(s, at + 4);
    if !right_size(kind, size) {
        return Err(Cause::WrongSize(at, size));
    }
    match kind {
        1 => Ok(Block::Head(heading_at(s, at))),
        2 => Ok(Block::Voice(size as usize)),
        3 => Ok(Block::End(word(s, at + 6))),
        _ => Err(Cause::UnknownKind(at)),
    }
}

// What the head at a place holds.
fn heading_at(s: &[u8], at: usize) -> Heading
    requires { at + 6 + 8 ≤ length s.now }
    ensures { result ≡ heading_at s.now at }
{
    let unit = word(s, at + 6);
    let number = word(s, at + 10);
    Heading { unit, number }
}

// Whether a payload's size is right for its kind; a kind that is unknown has no wrong size.
fn right_size(kind: u32, size: u32) -> bool
    ensures { result ≡ right_size kind size }
{
    match kind {
        1 => size == 8,
        2 => 0 < size && size % 18 == 0,
        3 => size == 4,
        _ => true,
    }
}
