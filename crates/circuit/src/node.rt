// What a node has by all its elements: net current, held conductance, steepest sum. Which they are, the
// index tells.
ghost use Rattle.std.specs.Prelude.{◌≡◌, ◌/◌, ◌≤◌, ◌<◌};
ghost use Rattle.network.specs.Network.{net, held, steepest, reading};
ghost use Rattle.circuit.specs.Board.{nodes_on, network_on, held_from, other_on, Laid, Evaluable};

use crate::Circuit;

impl Circuit {
    // The sum of all currents that leave the node: the leak's, and then element by element.
    pub fn net_current(&self, stored: &[i64; 32], volts: &[i64; 16], node: usize) -> i64
        requires { Evaluable self.now.board self.now.stretches stored.now volts.now × (node ≤ nodes_on self.now.board) }
        ensures { result ≡ net 1 (network_on self.now.board self.now.stretches) (reading stored.now) (reading volts.now) node }
    {
        let own = volts[node];
        let mut sum = self.leak() as i64 * own;
        for k in self.start(node)..self.start(node + 1) {
            sum += self.leaving(stored, volts, own, self.end(k));
        }
        sum
    }

    // What an end's element holds the node at that end by: its conductance, if its other end is ground or a
    // driven node.
    fn held_by(&self, end: usize) -> u64
        requires { end < 64 }
        ensures { result ≡ held_from self.now.board (end / 2) (other_on self.now.board end) }
    {
        if self.other(end) <= self.driven() {
            return self.plain_conductance(end / 2);
        }
        0
    }

    // The leak and the conductances to ground and driven nodes. A node that is not there has the leak alone.
    pub fn held(&self, node: usize) -> u64
        requires { Laid self.now.board self.now.stretches }
        ensures { result ≡ held (network_on self.now.board self.now.stretches) node }
    {
        let mut total = self.leak();
        if node > self.nodes() {
            return total;
        }
        for k in self.start(node)..self.start(node + 1) {
            total += self.held_by(self.end(k));
        }
        total
    }

    // The leak, all conductances, and each diode's greatest slope. A node that is not there has the leak alone.
    pub fn steepest(&self, node: usize) -> u64
        requires { Laid self.now.board self.now.stretches }
        ensures { result ≡ steepest (network_on self.now.board self.now.stretches) node }
    {
        let mut sum = self.leak();
        if node > self.nodes() {
            return sum;
        }
        for k in self.start(node)..self.start(node + 1) {
            sum += self.steepest_slope(self.end(k) / 2);
        }
        sum
    }
}
