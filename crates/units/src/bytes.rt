// Numbers in the bytes of a slice, the lowest byte first, over how many bytes a number has.
ghost use Rattle.std.specs.Prelude.{◌≡◌, ℕ, ◌+◌, ◌*◌, ◌/◌, ◌^◌, ◌<◌, ◌≤◌, length, ℤ};
ghost use Rattle.std.specs.Int.{w64};
ghost use Rattle.std.proofs.Common.{of_z};
ghost use Rattle.units.specs.Bytes.{Spells, little_endian, written, twos_complement};

use super::signed;

// What the N bytes from `at` on hold. They are gathered from the highest down.
pub fn unsigned_at<const N: usize>(s: &[u8], at: usize) -> u64
    requires { (N ≤ 8) × (at + N ≤ length s.now) }
    ensures { Spells N s.now at result }
{
    let mut n = 0;
    for i in (0..N).rev() {
        n = 256 * n + s[at + i] as u64;
    }
    n
}

// What the bits n say as a number with a sign: patterns from `half` on stand for the negative ones.
fn from_bits(n: u64, half: u64) -> i64
    requires { (half ≤ 2 ^ 63) × (n < half + half) }
    ensures { result ≡ twos_complement half n }
{
    if n < half {
        n as i64
    } else {
        -1 - ((half - 1 - (n - half)) as i64)
    }
}

// The bits of a number with a sign.
fn to_bits(z: i64) -> u64
    ensures { result ≡ of_z w64 z }
{
    let n = signed::size(z);
    if z < 0 {
        18446744073709551615 - (n - 1)
    } else {
        n
    }
}

// What the N bytes from `at` on hold as a number with a sign.
pub fn signed_at<const N: usize>(s: &[u8], at: usize) -> i64
    requires { (1 ≤ N) × (N ≤ 8) × (at + N ≤ length s.now) }
    ensures { result ≡ twos_complement (256 ^ N / 2) (little_endian N s.now at) }
{
    from_bits(unsigned_at::<N>(s, at), 1 << (8 * N - 1))
}

// The writers store the N lowest bytes of any number, and leave every other byte alone.
pub fn put_unsigned<const N: usize>(s: &mut [u8], at: usize, v: u64)
    requires { at + N ≤ length s.old }
    ensures { s.new ≡ written N s.old at v }
{
    let mut left = v;
    for i in 0..N {
        s[at + i] = (left % 256) as u8;
        left /= 256;
    }
}

pub fn put_signed<const N: usize>(s: &mut [u8], at: usize, z: i64)
    requires { at + N ≤ length s.old }
    ensures { s.new ≡ written N s.old at (of_z w64 z) }
{
    put_unsigned::<N>(s, at, to_bits(z));
}
