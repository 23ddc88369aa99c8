// Any signed 32-bit number to the index of the gain nearest to it, CG (3.4) or PG (3.6).
#![tactic(auto)]

ghost use Rattle.std.specs.Prelude.{◌≡◌, ◌≤◌, ◌<◌, length};
ghost use Rattle.gains.specs.Tables.{cg_table, pg_table};
ghost use Rattle.gains.specs.Nearest.{apart, nearest_of};

// The index of the stochastic code gain nearest to x.
pub fn nearest_cg(x: i32) -> u16
    ensures { result ≡ nearest_of cg_table x }
{
    nearest(&gains::CG, x)
}

// The index of the adaptive code gain nearest to x thousandths.
pub fn nearest_pg(x: i32) -> u16
    ensures { result ≡ nearest_of pg_table x }
{
    nearest(&gains::PG, x)
}

// The index of the entry nearest to x, the lowest of equally near ones.
fn nearest(table: &[i16], x: i32) -> u16
    requires table_nonzero { 0 < length table.now }
    requires table_len_bound { length table.now ≤ 65536 }
    ensures { result ≡ nearest_of table.now x }
{
    let mut best = 0;
    let mut near = distance(x, table[0]);
    for (i, entry) in table.iter().enumerate() {
        let d = distance(x, *entry);
        if d < near {
            best = i;
            near = d;
        }
    }
    best as u16
}

// How far x is from an entry. At 32 bits without a sign any such distance fits.
fn distance(x: i32, entry: i16) -> u32
    ensures { result ≡ apart x entry }
{
    x.abs_diff(i32::from(entry))
}
