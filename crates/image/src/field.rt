// Fields of the image that are counts or places: one byte, or two.
ghost use Rattle.std.specs.Prelude.{◌≡◌, ◌+◌, ◌≤◌, ◌<◌, length, get_or};
ghost use Rattle.units.specs.Bytes.{Spells};

use units::bytes;

pub fn byte(s: &[u8], at: usize) -> usize
    requires { at < length s.now }
    ensures { (result ≡ get_or s.now at 0) × (result < 256) }
{
    s[at] as usize
}

// The lowest byte first.
pub fn short(s: &[u8], at: usize) -> usize
    requires { at + 2 ≤ length s.now }
    ensures { Spells 2 s.now at result }
{
    bytes::unsigned_at::<2>(s, at) as usize
}
