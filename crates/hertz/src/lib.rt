// The ten line spectral parameters of 3.7, from their indices to Hz.
// LSP j stands at place j - 1 of a list of ten; all values are 16 bits.
#![tactic(auto)]

ghost use Rattle.std.specs.Prelude.{◌≡◌, T};
ghost use Rattle.laws.specs.Tabulate.{tabulate};
ghost use Rattle.lsp.specs.Table.{as_printed, too_large_field, hz_at, hertz_of};

use lsp::Refusal;

// The table of 3.7.2 in Hz as printed: a row for each index from 0, LSP 1 to 10 across, 0 where no entry is printed.
#[rattlefmt::skip]
const HZ: [u16; 160] = [
    100, 210, 420, 620, 1000, 1470, 1800, 2225, 2760, 3190,
    170, 235, 460, 660, 1050, 1570, 1880, 2400, 2880, 3270,
    225, 265, 500, 720, 1130, 1690, 1960, 2525, 3000, 3350,
    250, 295, 540, 795, 1210, 1830, 2100, 2650, 3100, 3420,
    280, 325, 585, 880, 1285, 2000, 2300, 2800, 3200, 3490,
    340, 360, 640, 970, 1350, 2200, 2480, 2950, 3310, 3590,
    420, 400, 705, 1080, 1430, 2400, 2700, 3150, 3430, 3710,
    500, 440, 775, 1170, 1510, 2600, 2900, 3350, 3550, 3830,
    0, 480, 850, 1270, 1590, 0, 0, 0, 0, 0,
    0, 520, 950, 1370, 1670, 0, 0, 0, 0, 0,
    0, 560, 1050, 1470, 1750, 0, 0, 0, 0, 0,
    0, 610, 1150, 1570, 1850, 0, 0, 0, 0, 0,
    0, 670, 1250, 1670, 1950, 0, 0, 0, 0, 0,
    0, 740, 1350, 1770, 2050, 0, 0, 0, 0, 0,
    0, 810, 1450, 1870, 2150, 0, 0, 0, 0, 0,
    0, 880, 1550, 1970, 2250, 0, 0, 0, 0, 0,
];

// How many bits the index of each LSP has, LSP 1 first.
const BITS: [u16; 10] = [3, 4, 4, 4, 4, 3, 3, 3, 3, 3];

// The ten indices in Hz, or the lowest LSP whose index does not fit its bits.
pub fn in_hertz(indices: [u16; 10]) -> Result<[u16; 10], Refusal>
    ensures { result ≡ hertz_of indices }
{
    let bits = BITS;
    for i in 0..10 {
        if indices[i] >> bits[i] != 0 {
            return Err(Refusal::TooLarge(i + 1));
        }
    }
    Ok(looked_up(&HZ, indices))
}

// The ten indices in Hz, from the table lent, where each fits its bits.
fn looked_up(table: &[u16; 160], indices: [u16; 10]) -> [u16; 10]
    requires printed { T (as_printed table.now) }
    requires indices_value { too_large_field indices ≡ 0 }
    ensures { result ≡ tabulate (hz_at indices) 10 }
{
    let mut hz = [0u16; 10];
    for i in 0..10 {
        let row = 10 * usize::from(indices[i]);
        hz[i] = table[row + i];
    }
    hz
}
