// A block: an image is admitted, the state and the lengths are tested, and then the samples are played.
ghost use Rattle.std.specs.Prelude.{◌≡◌, true, ℕ, ◌≤◌, length};
ghost use Rattle.units.specs.Number.{number_of};
ghost use Rattle.image.specs.Conductance.{conductances_fit};
ghost use Rattle.image.specs.Setting.{plain};
ghost use Rattle.image.specs.Sound.{Sound};
ghost use Rattle.block.specs.Block.{PlaysOn, block_limit};
ghost use Rattle.block.specs.Playing.{Admits, state_of};

use crate::ending::Ending;
use crate::{lengths, run, state};
use circuit::Circuit;
use image::Parts;
use units::number::Number;

// The parts of a circuit that can be played from an image, or document 01's number, of 1 to 6.
pub fn admit(image: &[u8]) -> Result<Parts, Number>
    ensures { Admits image.now result }
{
    let parts = image::read(image)?;
    if !image::conductances_fit(parts) {
        return Err(Number::Conductance);
    }
    Ok(parts)
}

// A block of a circuit that can be played.
pub fn play(parts: Parts, n: u64, drives: &[u8], x: &mut [i64; 32], outputs: &mut [u8]) -> Ending
    requires { Sound parts × (conductances_fit parts plain ≡ true) × (length x.old ≡ 32) }
    ensures plays { PlaysOn parts (state_of x.old) n drives.now outputs.old (number_of result.number) result.count (state_of x.new) outputs.new }
    ensures few { result.count ≤ block_limit }
{
    let mut circuit = Circuit {
        board: [0; 293],
        stretches: [0; 408],
    };
    opening::fill(parts, &mut circuit);
    if !state::legal(&circuit, x) {
        return Ending::refused(Number::State);
    }
    if !lengths::fit(parts.driven as usize, n, drives.len(), outputs.len()) {
        return Ending::refused(Number::Lengths);
    }
    let mut volts = [0i64; 16];
    run::run(
        &circuit,
        parts.output as usize,
        n as usize,
        drives,
        x,
        &mut volts,
        outputs,
    )
}
