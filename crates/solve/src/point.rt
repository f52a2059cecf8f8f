// A point of the search: the voltages of all nodes, and the net current of each node at them.
ghost use Rattle.std.specs.Prelude.{◌≡◌, set};
ghost use Rattle.units.specs.Voltage.{InRange};
ghost use Rattle.network.specs.Network.{Free};
ghost use Rattle.circuit.specs.Board.{network_on};
ghost use Rattle.solve.specs.Search.{Searching};

use circuit::Circuit;

#[derive(Clone, Copy)]
pub struct Point {
    pub volts: [i64; 16],
    pub nets: [i64; 16],
}

impl Point {
    // Node i moved to v: its net currents stay those of its voltages. Where it stands there already, none of
    // its elements is looked at.
    pub fn put(&mut self, circuit: &Circuit, stored: &[i64; 32], i: usize, v: i64)
        requires { Searching circuit.now.board circuit.now.stretches stored.now self.old.volts self.old.nets × Free (network_on circuit.now.board circuit.now.stretches) i × InRange v }
        ensures { Searching circuit.now.board circuit.now.stretches stored.now self.new.volts self.new.nets × (self.new.volts ≡ set self.old.volts i v) }
    {
        if self.volts[i] == v {
            return;
        }
        circuit.move_to(stored, i, v, &mut self.volts, &mut self.nets);
    }
}
