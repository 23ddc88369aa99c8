// A case's numbers: sixteen bits each, the lower byte first. One that is not there is 0.

// Number k.
pub fn short(case: &[u8], k: u16) -> u16 {
    let at = 2 * usize::from(k);
    if case.len() < at + 2 {
        return 0;
    }
    u16::from_le_bytes([case[at], case[at + 1]])
}

// Numbers k and k + 1 as one of 32 bits, the lower first.
pub fn word(case: &[u8], k: u8) -> u32 {
    let low = u16::from(k);
    u32::from(short(case, low)) + 65536 * u32::from(short(case, low + 1))
}

// The first two as a signed number, which they are above the least one.
pub fn signed(case: &[u8]) -> i32 {
    word(case, 0).cast_signed().wrapping_add(i32::MIN)
}

// Ten numbers from number `from` on.
pub fn ten(case: &[u8], from: u8) -> [u16; 10] {
    let mut xs = [0u16; 10];
    for i in 0..10u8 {
        xs[usize::from(i)] = short(case, u16::from(from) + u16::from(i));
    }
    xs
}
