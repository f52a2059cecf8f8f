// How large a number with a sign is, and a quotient rounded up. Sums, products and orders of i64 are written with the
// language's operators, and rest on the laws at the end of `proofs/Sizes.antt`.
ghost use Rattle.std.specs.Prelude.{◌≡◌, ◌+◌, ◌^◌, ◌<◌, ◌≤◌, unsigned_abs};
ghost use Rattle.units.specs.Integer.{rounded_up};

// How large a number is, whatever its sign.
pub fn size(z: i64) -> u64
    ensures { result ≡ unsigned_abs z }
{
    if z >= 0 {
        z as u64
    } else {
        ((-1 - z) as u64) + 1
    }
}

// n / s to a whole number, rounded up: how many steps of s it takes to cover n.
pub fn rounded_up(n: u64, s: u64) -> u64
    requires { (0 < s) × (n + s ≤ 2 ^ 64) }
    ensures { result ≡ rounded_up n s }
{
    (n + (s - 1)) / s
}
