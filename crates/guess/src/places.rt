// Arrays of microvolts with a place for each node, ground's first.
ghost use Rattle.std.specs.Prelude.{◌≡◌, ◌≤◌, length};
ghost use Rattle.circuit.specs.Board.{nodes_on, driven_on, Ranged};
ghost use Rattle.guess.specs.Proposal.{Standing, Proposed};

use circuit::Circuit;
use units::voltage::Voltage;

// Ground at zero and every node brought into range, so that currents can be asked for.
pub fn seated(circuit: &Circuit, volts: &[i64; 16]) -> [i64; 16]
    requires { nodes_on circuit.now.board ≤ 15 }
    ensures { Standing circuit.now.board result }
{
    let nodes = circuit.nodes();
    let mut at = [0i64; 16];
    for i in 1..nodes + 1 {
        at[i] = Voltage::clamped(volts[i]);
    }
    at
}

// The free nodes of `to` placed as in `from`.
pub fn place_free(circuit: &Circuit, from: &[i64; 16], to: &mut [i64; 16])
    requires { (nodes_on circuit.now.board ≤ 15) × (driven_on circuit.now.board ≤ nodes_on circuit.now.board) × Ranged circuit.now.board from.now × (length to.old ≡ 16) }
    ensures { Proposed circuit.now.board to.old to.new }
{
    circuit::places::take(from, circuit.driven() + 1, circuit.nodes() + 1, to);
}
