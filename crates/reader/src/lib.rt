// Reading a frame: 18 bytes to an index record with correction.
// The table of 3.8.2 is followed one place at a time. Between the bytes and the record the indices stand in one list by field
// number, the four parity bits under 0, as `parity` corrects it.
#![tactic(auto)]

ghost use Rattle.std.specs.Prelude.{◌≡◌, ◌+◌, ◌*◌, ◌<◌, length};
ghost use Rattle.laws.specs.Tabulate.{tabulate};
ghost use Rattle.frame.specs.Frame.{bit_at, index_in};
ghost use Rattle.frame.specs.Answers.{read_of};
ghost use Rattle.frame.specs.Steps.{entries, indices_up_to, record_by};

use frame::Reading;
use record::Record;

// Reads a frame; of bytes that are not eighteen nothing.
pub fn read(frame: &[u8]) -> Option<Reading>
    ensures { result ≡ read_of frame.now }
{
    if frame.len() != 18 {
        return None;
    }
    let received = gather(frame);
    let correction = parity::correction_of(parity::number_of(received));
    let indices = to_record(parity::mend(received, correction));
    let mark = marks::mark_of(indices);
    Some(Reading {
        indices,
        correction,
        mark,
    })
}

// The indices in a frame, uncorrected, by field number.
fn gather(frame: &[u8]) -> [u16; 29]
    requires { length frame.now ≡ 18 }
    ensures { result ≡ tabulate (index_in (bit_at frame.now)) 29 }
{
    let table = frame::table();
    let mut fields = [0u16; 29];
    for n in 0..18 {
        add_byte(frame, n, &table, &mut fields);
    }
    fields
}

// Adds the eight bits of byte n to the indices that the bytes before it gave, the top bit at the first of its places.
fn add_byte(frame: &[u8], n: usize, table: &[u16], fields: &mut [u16])
    requires n_in_bounds { n < length frame.now }
    requires n_bound { n < 18 }
    requires table_value { table.now ≡ entries }
    requires fields_value { fields.old ≡ indices_up_to (bit_at frame.now) (8 * n) }
    ensures { fields.new ≡ indices_up_to (bit_at frame.now) (8 * (n + 1)) }
{
    let byte = frame[n];
    let from = 8 * n;
    for q in 0..8 {
        let entry = table[from + q];
        let f = (entry / 16) as usize;
        fields[f] += (((byte >> (7 - q)) % 2) as u16) << (entry % 16);
    }
}

// The record of a list of indices by field.
fn to_record(fields: [u16; 29]) -> Record
    ensures { result ≡ record_by fields }
{
    let mut lsp = [0u16; 10];
    lsp.copy_from_slice(&fields[1..11]);
    let mut subframes = [0u16; 16];
    subframes.copy_from_slice(&fields[11..27]);
    Record {
        lsp,
        subframes,
        sp: fields[27],
        sy: fields[28],
    }
}
