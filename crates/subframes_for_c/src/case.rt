// The numbers of a case, each with its lowest byte first; one whose bytes are not all there is 0.

// The register: 147 signed numbers from place 4 on.
pub fn register(given: &[u8]) -> [i32; 147] {
    let mut register = [0; 147];
    for (i, element) in register.iter_mut().enumerate() {
        *element = i32::from_le_bytes(bytes(given, 4 + 4 * i));
    }
    register
}

// Two bytes from a place on as a number.
pub fn half(given: &[u8], at: usize) -> u16 {
    u16::from_le_bytes(bytes(given, at))
}

// Four bytes from a place on as a number.
pub fn word(given: &[u8], at: usize) -> u32 {
    u32::from_le_bytes(bytes(given, at))
}

// So many bytes from a place on.
fn bytes<const N: usize>(given: &[u8], at: usize) -> [u8; N] {
    match given.get(at..).and_then(|rest| rest.first_chunk()) {
        Some(there) => *there,
        None => [0; N],
    }
}
