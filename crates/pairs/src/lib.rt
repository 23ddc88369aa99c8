// A record as the bytes of the C boundary: 56 of them, each index a pair, the lower half first.
#![tactic(auto)]

ghost use Rattle.std.specs.Prelude.{◌≡◌, ◌+◌, ◌<◌, eqb, length};
ghost use Rattle.laws.specs.Bytes.{pair_at};
ghost use Rattle.pairs.specs.Pairs.{with_pair, bytes_of, bytes_left, record_in, taken_of};

use record::Record;

// Puts a record into a buffer of 56 bytes, and answers whether it did: any other buffer stays as it was.
pub fn put(r: Record, out: &mut [u8]) -> bool
    ensures value { result ≡ eqb (length out.old) 56 }
    ensures out_after { out.new ≡ bytes_left r out.old }
{
    if out.len() != 56 {
        return false;
    }
    put_all(r, out);
    true
}

// Takes the record out of 56 bytes; out of any others none.
pub fn take(bytes: &[u8]) -> Option<Record>
    ensures { result ≡ taken_of bytes.now }
{
    if bytes.len() != 56 {
        return None;
    }
    Some(take_all(bytes))
}

// Puts pair after pair.
fn put_all(r: Record, out: &mut [u8])
    requires { length out.old ≡ 56 }
    ensures { out.new ≡ bytes_of r }
{
    let indices = r.by_field();
    for (k, index) in indices.iter().enumerate() {
        put_pair(*index, out, 2 * k);
    }
}

// Puts an index into two bytes of a buffer, the lower half first.
fn put_pair(index: u16, out: &mut [u8], at: usize)
    requires { at + 1 < length out.old }
    ensures { out.new ≡ with_pair out.old at index }
{
    out[at..at + 2].copy_from_slice(&index.to_le_bytes());
}

// Takes pair after pair.
fn take_all(bytes: &[u8]) -> Record
    requires { length bytes.now ≡ 56 }
    ensures { result ≡ record_in bytes.now }
{
    let mut lsp = [0u16; 10];
    for (k, index) in lsp.iter_mut().enumerate() {
        *index = take_pair(bytes, 2 * k);
    }
    let mut subframes = [0u16; 16];
    for (n, index) in subframes.iter_mut().enumerate() {
        *index = take_pair(bytes, 20 + 2 * n);
    }
    Record {
        lsp,
        subframes,
        sp: take_pair(bytes, 52),
        sy: take_pair(bytes, 54),
    }
}

// The index in two bytes.
fn take_pair(bytes: &[u8], at: usize) -> u16
    requires { at + 1 < length bytes.now }
    ensures { result ≡ pair_at bytes.now at }
{
    u16::from_le_bytes([bytes[at], bytes[at + 1]])
}
