// A proposal for a sample's voltages, from the last sample's and the drives.
ghost use Rattle.std.specs.Prelude.{◌≡◌, length};
ghost use Rattle.guess.specs.Proposal.{Guessable, Proposed};

use crate::memory::Memory;
use crate::newton::Ending;
use crate::{lines, newton, places, slide};
use circuit::Circuit;

// One free node slides, more go Newton's way, and with none there is nothing to propose. `volts` may hold
// anything; its ground and driven nodes stay as they are. The memory is new before the first sample of a
// circuit, and then as the last call left it.
pub fn propose(
    circuit: &Circuit,
    stored: &[i64; 32],
    volts: &mut [i64; 16],
    memory: &mut Memory,
) -> Ending
    requires { Guessable circuit.now.board circuit.now.stretches stored.now × (length volts.old ≡ 16) }
    ensures { Proposed circuit.now.board volts.old volts.new }
{
    let nodes = circuit.nodes();
    let driven = circuit.driven();
    if nodes == driven {
        return Ending::Settled(0.0);
    }
    let mut at = places::seated(circuit, volts);
    if nodes == driven + 1 {
        if memory.updates.is_none() {
            lines::note_curves(circuit, memory);
            memory.made();
        }
        let curved = !memory.curves().is_empty();
        let ending = slide::slide(circuit, stored, nodes, curved, &mut at);
        places::place_free(circuit, &at, volts);
        return ending;
    }
    newton::newton(circuit, stored, &at, memory, volts)
}
