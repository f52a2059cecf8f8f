// The net currents of all nodes: taken from nothing, and kept while nodes move. A move costs what the
// moved node's own elements cost, and every net current stays exact.
ghost use Rattle.std.specs.Prelude.{◌≡◌, ◌≤◌, length};
ghost use Rattle.units.specs.Voltage.{InRange};
ghost use Rattle.network.specs.Network.{node_limit, leak_limit};
ghost use Rattle.circuit.specs.Board.{leak_on, nodes_on, Ranged, Evaluable};
ghost use Rattle.circuit.specs.Nets.{Leaked, Netted, Moved, Spread};

use crate::Circuit;

impl Circuit {
    // What leaves every node by the leak alone.
    fn leaked(&self, volts: &[i64; 16]) -> [i64; 16]
        requires { (leak_on self.now.board ≤ leak_limit) × (nodes_on self.now.board ≤ node_limit) × Ranged self.now.board volts.now }
        ensures { Leaked self.now.board volts.now result }
    {
        let nodes = self.nodes();
        let leak = self.leak() as i64;
        let mut nets = [0i64; 16];
        for i in 0..nodes + 1 {
            nets[i] = leak * volts[i];
        }
        nets
    }

    // The net currents of all nodes, from nothing: what each element carries is taken once, and counted at both
    // of its ends.
    pub fn net_currents(&self, stored: &[i64; 32], volts: &[i64; 16]) -> [i64; 16]
        requires { Evaluable self.now.board self.now.stretches stored.now volts.now }
        ensures { Netted self.now.board self.now.stretches stored.now volts.now result }
    {
        let count = self.count();
        let mut nets = self.leaked(volts);
        for j in 0..count {
            let p = self.end_p(j);
            let q = self.end_q(j);
            let c = self.flow(stored, volts, j);
            nets[p] += c;
            nets[q] -= c;
        }
        nets
    }

    // Node i is about to stand at v: what each of its elements then carries more is taken off at the element's
    // other end. Gives what node i itself then has. The stored currents are lent so that the contract can
    // speak of net currents: they are the same before and after, and no change needs them.
    fn spread(
        &self,
        stored: &[i64; 32],
        volts: &[i64; 16],
        i: usize,
        v: i64,
        nets: &mut [i64; 16],
    ) -> i64
        requires { Evaluable self.now.board self.now.stretches stored.now volts.now × (length volts.now ≡ 16) × Netted self.now.board self.now.stretches stored.now volts.now nets.old × (i ≤ nodes_on self.now.board) × InRange v }
        ensures { Spread self.now.board self.now.stretches stored.now volts.now i v result nets.new }
    {
        let own = volts[i];
        let mut sum = nets[i] + self.leak() as i64 * (v - own);
        for k in self.start(i)..self.start(i + 1) {
            let end = self.end(k);
            let other = self.other(end);
            let more = self.more(stored, volts, own, v, end, other);
            nets[other] -= more;
            sum += more;
        }
        sum
    }

    // Node i is moved to v: what each of its elements then carries more is added at it and taken off at the
    // element's other end.
    pub fn move_to(
        &self,
        stored: &[i64; 32],
        i: usize,
        v: i64,
        volts: &mut [i64; 16],
        nets: &mut [i64; 16],
    )
        requires { Evaluable self.now.board self.now.stretches stored.now volts.old × (length volts.old ≡ 16) × Netted self.now.board self.now.stretches stored.now volts.old nets.old × (i ≤ nodes_on self.now.board) × InRange v }
        ensures { Moved self.now.board self.now.stretches stored.now volts.old i v volts.new nets.new }
    {
        let own = self.spread(stored, volts, i, v, nets);
        nets[i] = own;
        volts[i] = v;
    }
}
