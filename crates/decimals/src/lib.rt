// Decimal numbers laid into a lent buffer, as `text` lays words: each put answers the position after what it laid, held at
// the buffer's end. What has no room is left out, and no other byte changes.
#![tactic(auto)]

ghost use Rattle.std.specs.Prelude.{◌≡◌, length};
ghost use Rattle.text.specs.Laid.{laid, after};
ghost use Rattle.text.specs.Decimal.{decimal};
ghost use Rattle.text.specs.Signed.{signed_decimal, spaced};

// Lays a number in decimal: its digits are counted, those with no room passed over, and the others stored from the
// last.
pub fn put_number(out: &mut [u8], at: usize, n: u64) -> usize
    ensures value { result ≡ after out.old at (decimal n) }
    ensures out_after { out.new ≡ laid out.old at (decimal n) }
{
    let long = out.len();
    if long <= at {
        return long;
    }
    let count = digits(n);
    let kept = count.min(long - at);
    let mut rest = n;
    for _ in kept..count {
        rest /= 10;
    }
    for i in (0..kept).rev() {
        out[at + i] = b'0' + (rest % 10) as u8;
        rest /= 10;
    }
    at + kept
}

// Lays a signed number in decimal, with a minus before one below 0.
pub fn put_signed(out: &mut [u8], at: usize, x: i32) -> usize
    ensures value { result ≡ after out.old at (signed_decimal x) }
    ensures out_after { out.new ≡ laid out.old at (signed_decimal x) }
{
    let size = u64::from(x.unsigned_abs());
    if x < 0 {
        let next = text::put_byte(out, at, b'-');
        return put_number(out, next, size);
    }
    put_number(out, at, size)
}

// Lays signed numbers in a row, a space before each.
pub fn put_list(out: &mut [u8], at: usize, xs: &[i32]) -> usize
    ensures value { result ≡ after out.old at (spaced xs.now) }
    ensures out_after { out.new ≡ laid out.old at (spaced xs.now) }
{
    let mut end = at.min(out.len());
    for x in xs {
        let next = text::put_byte(out, end, b' ');
        end = put_signed(out, next, *x);
    }
    end
}

// How many digits a number has.
fn digits(n: u64) -> usize
    ensures { result ≡ length (decimal n) }
{
    n.max(1).ilog10() as usize + 1
}
