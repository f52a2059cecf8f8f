// The net currents of all nodes taken along, where many nodes change at once. An element both of whose
// ends went the same way carries what it carried, and is not evaluated.
ghost use Rattle.std.specs.Prelude.{◌+◌, ◌<◌};
ghost use Rattle.circuit.specs.Board.{count_on, Evaluable};
ghost use Rattle.circuit.specs.Nets.{Netted};
ghost use Rattle.circuit.specs.Shift.{Shifted};

use crate::Circuit;

impl Circuit {
    // What the leaks carry more.
    fn leaks_shift(
        &self,
        stored: &[i64; 32],
        volts: &[i64; 16],
        s: &[i64; 16],
        nets: &mut [i64; 16],
    )
        requires { Evaluable self.now.board self.now.stretches stored.now volts.now × Evaluable self.now.board self.now.stretches stored.now s.now × Netted self.now.board self.now.stretches stored.now volts.now nets.old }
        ensures { Shifted self.now.board self.now.stretches stored.now volts.now s.now 0 nets.new }
    {
        let nodes = self.nodes();
        let leak = self.leak() as i64;
        for i in 0..nodes + 1 {
            nets[i] += leak * (s[i] - volts[i]);
        }
    }

    // What element j carries more: gained at its end p, lost at its end q.
    fn element_shift(
        &self,
        stored: &[i64; 32],
        volts: &[i64; 16],
        s: &[i64; 16],
        j: usize,
        nets: &mut [i64; 16],
    )
        requires { Evaluable self.now.board self.now.stretches stored.now volts.now × Evaluable self.now.board self.now.stretches stored.now s.now × Shifted self.now.board self.now.stretches stored.now volts.now s.now j nets.old × (j < count_on self.now.board) }
        ensures { Shifted self.now.board self.now.stretches stored.now volts.now s.now (j + 1) nets.new }
    {
        let old = self.across(volts, j);
        let new = self.across(s, j);
        if old == new {
            return;
        }
        let more = self.gained(j, old, new);
        let p = self.end_p(j);
        let q = self.end_q(j);
        nets[p] += more;
        nets[q] -= more;
    }

    // The net currents at `volts` become those at s.
    pub fn shift(&self, stored: &[i64; 32], volts: &[i64; 16], s: &[i64; 16], nets: &mut [i64; 16])
        requires { Evaluable self.now.board self.now.stretches stored.now volts.now × Evaluable self.now.board self.now.stretches stored.now s.now × Netted self.now.board self.now.stretches stored.now volts.now nets.old }
        ensures { Netted self.now.board self.now.stretches stored.now s.now nets.new }
    {
        self.leaks_shift(stored, volts, s, nets);
        let count = self.count();
        for j in 0..count {
            self.element_shift(stored, volts, s, j, nets);
        }
    }
}
