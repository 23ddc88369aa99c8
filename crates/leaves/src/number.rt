// One number for an answer.

// A refusal's number and what it tells.
pub fn refused(refusal: u16, tells: u16) -> u64 {
    9000000000000000000 + 100000 * u64::from(refusal) + u64::from(tells)
}

// Four numbers of sixteen bits, the first lowest.
pub fn packed([a, b, c, d]: [u16; 4]) -> u64 {
    u64::from(a) + 65536 * u64::from(b) + 4294967296 * u64::from(c) + 281474976710656 * u64::from(d)
}

const MANY: u64 = 288230376151711744;

// Many numbers as one, with one more: 31 times as much and that, modulo 2 to the 58th.
pub fn with(sum: u64, n: u64) -> u64 {
    (31 * (sum % MANY) + n % MANY) % MANY
}
