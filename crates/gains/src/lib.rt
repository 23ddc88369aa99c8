// Gains: the stochastic code gain CG (3.4) and the adaptive code gain PG (3.6), which is kept in thousandths.
// A gain's index goes to its table entry.
#![tactic(auto)]

ghost use Rattle.std.specs.Prelude.{◌≡◌};
ghost use Rattle.gains.specs.Gains.{gain_of, cg_of, pg_of};

// The stochastic code gains, index 0 first. Index 10 is printed 98 in our copy, which document 01 corrects.
#[rattlefmt::skip]
pub const CG: [i16; 32] = [
    -1330, -870, -660, -520, -418, -340, -278, -224,
    -178, -136, -98, -64, -35, -13, -3, -1,
    1, 3, 13, 35, 64, 98, 136, 178,
    224, 278, 340, 418, 520, 660, 870, 1330,
];

// The adaptive code gains in thousandths, index 0 first.
#[rattlefmt::skip]
pub const PG: [i16; 32] = [
    -993, -831, -693, -555, -414, -229, 0, 139,
    255, 368, 457, 531, 601, 653, 702, 745,
    780, 816, 850, 881, 915, 948, 983, 1020,
    1062, 1117, 1193, 1289, 1394, 1540, 1765, 1991,
];

// Why an index has no gain: it is too large for its field.
#[derive(Clone, Copy, Debug, PartialEq, Eq)]
pub enum Refusal {
    TooLarge,
}

// The stochastic code gain of an index.
pub fn cg(index: u16) -> Result<i32, Refusal>
    ensures { result ≡ cg_of index }
{
    gain_at(&CG, index)
}

// The adaptive code gain of an index, in thousandths.
pub fn pg(index: u16) -> Result<i32, Refusal>
    ensures { result ≡ pg_of index }
{
    gain_at(&PG, index)
}

// The gain of an index in a table lent, for whoever looks up several.
pub fn gain_at(table: &[i16; 32], index: u16) -> Result<i32, Refusal>
    ensures { result ≡ gain_of table.now index }
{
    if 31 < index {
        return Err(Refusal::TooLarge);
    }
    let entry = table[usize::from(index)];
    Ok(i32::from(entry))
}
