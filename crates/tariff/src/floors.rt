// Division of a figure of either sign, rounded down. Below zero it goes by -1 - z, which is not negative.
// Not by `div_euclid`: it divides by an `i64`, and d is a `u64`.
ghost use Rattle.std.specs.Prelude.{◌≡◌, ◌<◌};
ghost use Rattle.integers.specs.Division.{floor_div, floor_mod};

pub fn floor_quotient(z: i64, d: u64) -> i64
    requires { 0 < d }
    ensures { result ≡ floor_div z d }
{
    if z < 0 {
        let whole = ((-1 - z) as u64) / d;
        -1 - (whole as i64)
    } else {
        ((z as u64) / d) as i64
    }
}

// What is left above it.
pub fn floor_remainder(z: i64, d: u64) -> u64
    requires { 0 < d }
    ensures { (result ≡ floor_mod z d) × (result < d) }
{
    if z < 0 {
        let above = ((-1 - z) as u64) % d;
        d - 1 - above
    } else {
        (z as u64) % d
    }
}
