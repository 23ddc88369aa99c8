// The frame of a record: 18 bytes, with their parity.
// The indices are put in one list by field number, the four parity bits under 0, and sent by the table of 3.8.2.
#![tactic(auto)]

ghost use Rattle.std.specs.Prelude.{◌≡◌, ◌<◌, length, get_or};
ghost use Rattle.laws.specs.Total.{from_bits};
ghost use Rattle.frame.specs.Frame.{place_at, sent, frame_of};
ghost use Rattle.frame.specs.Steps.{entries, fields_of};

use record::Record;

// The frame of any record: an index that does not fit its field is sent by its lowest bits.
pub fn frame_of(r: Record) -> [u8; 18]
    ensures { result ≡ frame_of r }
{
    let mut fields = to_fields(r);
    fields[0] = parity::number_of(fields) as u16;
    let table = frame::table();
    let mut frame = [0u8; 18];
    for (k, byte) in frame.iter_mut().enumerate() {
        *byte = byte_at(&fields, &table, k);
    }
    frame
}

// A record's indices by field, the parity bits 0.
fn to_fields(r: Record) -> [u16; 29]
    ensures { result ≡ fields_of r }
{
    let mut fields = [0u16; 29];
    fields[1..].copy_from_slice(&r.by_field());
    fields
}

// Byte k of the frame that the indices are sent in: eight places of the table, the first of them at the top.
fn byte_at(fields: &[u16], table: &[u16], k: usize) -> u8
    requires fields_len { length fields.now ≡ 29 }
    requires table_value { table.now ≡ entries }
    requires k_bound { k < 18 }
    ensures { result ≡ from_bits (λ i. sent (λ f. get_or fields.now f 0) (place_at k i)) 8 }
{
    let from = 8 * k;
    let mut x: u16 = 0;
    for q in 0..8 {
        let entry = table[from + q];
        let f = (entry / 16) as usize;
        x = x * 2 + (fields[f] >> (entry % 16)) % 2;
    }
    x as u8
}
