// The drives of a sample: from their bytes to the driven nodes.
ghost use Rattle.std.specs.Prelude.{◌≡◌, ℕ, ◌+◌, ◌*◌, ◌≤◌, ◌<◌, length};
ghost use Rattle.block.specs.Drives.{Placed};

use units::bytes;

// Puts the drives of sample j at the driven nodes.
pub fn place(drives: &[u8], driven: usize, j: usize, volts: &mut [i64; 16])
    requires { (driven ≤ 15) × (j < 4096) × (4 * (j * driven + driven) ≤ length drives.now) × (length volts.old ≡ 16) }
    ensures { Placed drives.now driven j driven volts.old volts.new }
{
    let first = j * driven;
    for i in 0..driven {
        volts[1 + i] = bytes::signed_at::<4>(drives, 4 * (first + i));
    }
}
