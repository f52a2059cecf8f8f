// The two ways to call a block: from Rattle with a state by value, and from C with bytes.
ghost use Rattle.std.specs.Prelude.{◌≡◌};
ghost use Rattle.block.specs.Block.{Plays};
ghost use Rattle.units.specs.Number.{number_of};
ghost use Rattle.block.specs.Call.{Called};

use crate::ending::Ending;
use crate::{play, state};
use units::number::Number;

// What a circuit keeps from one block to the next: the stored currents of its elements, in femtoamperes.
#[derive(Clone, Copy)]
pub struct State {
    pub currents: [i64; 32],
}

// What comes back: document 01's number, how many samples were accepted, and the state after them.
#[derive(Clone, Copy)]
pub struct Played {
    pub number: Number,
    pub count: u64,
    pub state: State,
}

// A block. Output places past the count keep their contents.
pub fn block(image: &[u8], state: State, n: u64, drives: &[u8], outputs: &mut [u8]) -> Played
    ensures { Plays image.now state n drives.now outputs.old (number_of result.number) result.count result.state outputs.new }
{
    let parts = match play::admit(image) {
        Ok(parts) => parts,
        Err(number) => {
            return Played {
                number,
                count: 0,
                state,
            };
        }
    };
    let given = state.currents;
    let mut x = state::known(given);
    let ending = play::play(parts, n, drives, &mut x, outputs);
    Played {
        number: ending.number,
        count: ending.count,
        state: State { currents: x },
    }
}

// The block for a host written in C, which calls it by the crate block_c: include/krtovalin.h says how. The image comes
// first, so that how long a state has to be may depend on it.
pub fn krtovalin_block(
    image: &[u8],
    state: &mut [u8],
    n: u64,
    drives: &[u8],
    outputs: &mut [u8],
) -> u64
    ensures { Called image.now state.old n drives.now outputs.old result state.new outputs.new }
{
    let parts = match play::admit(image) {
        Ok(parts) => parts,
        Err(number) => return Ending::refused(number).packed(),
    };
    if state.len() != 256 {
        return Ending::refused(Number::State).packed();
    }
    let mut x = state::read(state);
    let ending = play::play(parts, n, drives, &mut x, outputs);
    if ending.count != 0 {
        state::write(state, &x);
    }
    ending.packed()
}
