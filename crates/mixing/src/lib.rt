// One element of the excitation (document 02, K6): the exact sum of two products in thousandths, rounded once and held.
// Any four numbers of these widths have an element: 64 bits have room for each product and for the sum.
#![tactic(auto)]

ghost use Rattle.std.specs.Prelude.{◌≡◌, ◌≤◌, ◌^◌, ◌*ℤ◌};
ghost use Rattle.mixing.specs.Mixing.{sum_of, whole_size, whole_of, element_of};

// CG times the ternary element and a thousandth of PG times the adaptive element, rounded once to nearest, halves away
// from zero, and then held within plus or minus 1,000,000.
pub fn element(cg: i32, ternary: i8, pg: i32, adaptive: i32) -> i32
    ensures { result ≡ element_of cg ternary pg adaptive }
{
    whole(sum_of(cg, ternary, pg, adaptive))
}

// The exact sum, in thousandths.
fn sum_of(cg: i32, ternary: i8, pg: i32, adaptive: i32) -> i64
    ensures { result ≡ sum_of cg ternary pg adaptive }
{
    let code = product(cg, ternary as i32);
    let past = product(pg, adaptive);
    let scaled = 1000 * code;
    scaled + past
}

// The product of two numbers of 32 bits.
fn product(a: i32, b: i32) -> i64
    ensures { result ≡ a *ℤ b }
{
    let wide = a as i64;
    let long = b as i64;
    wide * long
}

// A sum of thousandths as a whole number, rounded and held: of its size, with its sign.
fn whole(sum: i64) -> i32
    ensures { result ≡ whole_of sum }
{
    if sum < 0 {
        let turned = -1 - sum;
        let size = turned as u64 + 1;
        let below = whole_size(size) as i32;
        return 0 - below;
    }
    let size = sum as u64;
    whole_size(size) as i32
}

// How many whole ones are nearest to so many thousandths, the more of two at a half, and at most 1,000,000.
fn whole_size(size: u64) -> u64
    requires { size ≤ 2 ^ 63 }
    ensures { result ≡ whole_size size }
{
    let near = (size + 500) / 1000;
    if 1000000 < near {
        return 1000000;
    }
    near
}
