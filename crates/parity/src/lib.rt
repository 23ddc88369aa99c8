// Parity and correction (3.9), on a list of indices by field number, the four parity bits HP-0 to HP-3 under 0: the correction number
// of a list, the case that a number means and the number of a case, and what a correction changes.
#![tactic(auto)]

ghost use Rattle.std.specs.Prelude.{◌≡◌};
ghost use Rattle.frame.specs.Correction.{correction_of, data_number, number_of_case};
ghost use Rattle.frame.specs.Steps.{guarded_entries, number_in, inverting, mended_fields};

use frame::Correction;

// The guarded bits by their correction numbers, 1 first (3.9): the field in the upper digits, the bit in the last.
#[rattlefmt::skip]
const GUARDED: [u16; 15] = [
    0x000, 0x001, 0x0b5, 0x002, 0x0b6, //  1 to 5: HP-0, HP-1, PD(1)-5, HP-2, PD(1)-6
    0x0b7, 0x0c4, 0x003, 0x104, 0x135, //  6 to 10: PD(1)-7, PG(1)-4, HP-3, PG(2)-4, PD(3)-5
    0x136, 0x137, 0x144, 0x184, 0x1b0, // 11 to 15: PD(3)-6, PD(3)-7, PG(3)-4, PG(4)-4, SP
];

// The guarded bits, as the definitions have them.
fn guarded() -> [u16; 15]
    ensures { result ≡ guarded_entries }
{
    GUARDED
}

// The correction number of a list of indices by field: the exclusive or of the numbers of the guarded bits that are 1.
pub fn number_of(fields: [u16; 29]) -> usize
    ensures { result ≡ number_in fields }
{
    let guarded = guarded();
    let mut number = 0;
    for (n, entry) in guarded.iter().enumerate() {
        let f = (*entry / 16) as usize;
        let x = ((fields[f] >> (*entry % 16)) % 2) as usize;
        number ^= (n + 1) * x;
    }
    number
}

// The correction that a number means. A number over 15, which no guarded bit has, changes nothing, as 0 does.
pub fn correction_of(number: usize) -> Correction
    ensures { result ≡ correction_of number }
{
    if number == 0 {
        return Correction::Clean;
    }
    if number > 15 {
        return Correction::Clean;
    }
    let guarded = guarded();
    let entry = guarded[number - 1];
    let field = (entry / 16) as usize;
    if field == 0 {
        return Correction::Parity(number);
    }
    let bit = (entry % 16) as usize;
    Correction::Data(field, bit)
}

// The correction number of any case; 0 for a data bit that is none of the eleven. It is a number with 0 for none in the interface for
// C, and in `CaseOfEach`.
pub fn number_for(correction: Correction) -> usize
    ensures { result ≡ number_of_case correction }
{
    match correction {
        Correction::Clean => 0,
        Correction::Parity(number) => number,
        Correction::Data(f, i) => data_number(f, i),
    }
}

// The number under which bit i of field f is guarded, or 0.
fn data_number(f: usize, i: usize) -> usize
    ensures { result ≡ data_number f i }
{
    if f == 0 {
        return 0;
    }
    let guarded = guarded();
    for (k, entry) in guarded.iter().enumerate() {
        if (*entry / 16) as usize == f && (*entry % 16) as usize == i {
            return k + 1;
        }
    }
    0
}

// The indices after a correction: a data hit inverts the bit that it names, and nothing else changes any.
pub fn mend(fields: [u16; 29], correction: Correction) -> [u16; 29]
    ensures { result ≡ mended_fields fields correction }
{
    match correction {
        Correction::Clean => fields,
        Correction::Parity(_) => fields,
        Correction::Data(f, i) => inverted(fields, f, i),
    }
}

// The indices with bit i of field f inverted; where the list has no such bit, as they are.
fn inverted(fields: [u16; 29], f: usize, i: usize) -> [u16; 29]
    ensures { result ≡ inverting fields f i }
{
    if f > 28 {
        return fields;
    }
    if i > 15 {
        return fields;
    }
    let mut v = fields;
    v[f] = v[f] ^ (1 << i);
    v
}
