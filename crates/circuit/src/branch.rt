// One element as a branch: its current, and what leaves a node by it.
ghost use Rattle.std.specs.Prelude.{◌≡◌, ◌/◌, ◌<◌, ℤ, ◌-ℤ◌, length, set};
ghost use Rattle.units.specs.Voltage.{Within, InRange};
ghost use Rattle.network.specs.Network.{current, steepest_of, reading, breakpoint_limit, stored_limit};
ghost use Rattle.circuit.specs.Board.{count_on, first_on, breakpoints_on, plain_conductance, branch_on, Laid, Evaluable, Ends, across_on, flow_on, end_at, node_on, other_on, leaving_on};

use crate::Circuit;
use network::kind;
use stretch::curve::Curve;

// The two ends of an element.
#[derive(Clone, Copy)]
pub enum End {
    P,
    Q,
}

impl Circuit {
    // Which end of element j a node is, if it is one. Asked for the index alone, which tells from then on which
    // elements a node has.
    pub fn end_at(&self, j: usize, node: usize) -> Option<End>
        requires { j < 32 }
        ensures { result ≡ end_at self.now.board j node }
    {
        if node == self.end_p(j) {
            return Some(End::P);
        }
        if node == self.end_q(j) {
            return Some(End::Q);
        }
        None
    }

    // The curve of element j, which has one.
    pub fn curve(&self, j: usize) -> Curve<'_>
        requires { j < 32 }
        ensures { (result.stretches.now ≡ self.now.stretches) × (result.first ≡ first_on self.now.board j) × (result.breakpoints ≡ breakpoints_on self.now.board j) }
    {
        Curve {
            stretches: &self.stretches,
            first: self.first(j),
            breakpoints: self.breakpoints(j),
        }
    }

    // What element j carries from p to q at the voltage v between them, its stored current being x. That it has
    // a curve is told by its conductance, which is read in any case: it is zero there alone.
    pub fn carried(&self, j: usize, x: i64, v: i64) -> i64
        requires { Laid self.now.board self.now.stretches × (j < count_on self.now.board) × Within stored_limit x × Within breakpoint_limit v }
        ensures { result ≡ current 1 (branch_on self.now.board self.now.stretches j).law x v }
    {
        let g = self.conductance(j);
        if g == 0 {
            return self.curve(j).current(v);
        }
        g as i64 * v - x
    }

    // The voltage of element j: that of its end p less that of its end q.
    pub fn across(&self, volts: &[i64; 16], j: usize) -> i64
        requires { Ends self.now.board volts.now j }
        ensures { result ≡ across_on self.now.board volts.now j }
    {
        let p = self.end_p(j);
        let q = self.end_q(j);
        volts[p] - volts[q]
    }

    // The current of element j, from its end p to its end q, at these voltages.
    pub fn flow(&self, stored: &[i64; 32], volts: &[i64; 16], j: usize) -> i64
        requires { Evaluable self.now.board self.now.stretches stored.now volts.now × (j < count_on self.now.board) }
        ensures { result ≡ flow_on self.now.board self.now.stretches stored.now volts.now j }
    {
        self.carried(j, stored[j], self.across(volts, j))
    }

    // What leaves the node at an end by the end's element. The node's own voltage is handed over: a sum over
    // its ends has read it once.
    pub fn leaving(&self, stored: &[i64; 32], volts: &[i64; 16], own: i64, end: usize) -> i64
        requires { Evaluable self.now.board self.now.stretches stored.now volts.now × (end / 2 < count_on self.now.board) × (own ≡ reading volts.now (node_on self.now.board end)) }
        ensures { result ≡ leaving_on self.now.board self.now.stretches stored.now volts.now end }
    {
        let j = end / 2;
        if end % 2 == 0 {
            let q = self.end_q(j);
            return self.carried(j, stored[j], own - volts[q]);
        }
        let p = self.end_p(j);
        -self.carried(j, stored[j], volts[p] - own)
    }

    // What element j carries more at the voltage `new` than at `old`, whatever it stores.
    pub fn gained(&self, j: usize, old: i64, new: i64) -> i64
        requires { Laid self.now.board self.now.stretches × (j < count_on self.now.board) × Within breakpoint_limit old × Within breakpoint_limit new }
        ensures { (x : ℤ) → result ≡ current 1 (branch_on self.now.board self.now.stretches j).law x new -ℤ current 1 (branch_on self.now.board self.now.stretches j).law x old }
    {
        let g = self.conductance(j);
        if g == 0 {
            return self.curve(j).change(old, new);
        }
        g as i64 * (new - old)
    }

    // What leaves the node at an end more by the end's element, once the node stands at v. The node's own voltage
    // and the node at the other end are handed over: a move has read them. A conductance asks for no more than
    // itself, since the other end stands still and what is stored stays: it is not asked which end it is.
    pub fn more(
        &self,
        stored: &[i64; 32],
        volts: &[i64; 16],
        own: i64,
        v: i64,
        end: usize,
        other: usize,
    ) -> i64
        requires { Evaluable self.now.board self.now.stretches stored.now volts.now × (length volts.now ≡ 16) × (end / 2 < count_on self.now.board) × (own ≡ reading volts.now (node_on self.now.board end)) × InRange v × (other ≡ other_on self.now.board end) }
        ensures { result ≡ leaving_on self.now.board self.now.stretches stored.now (set volts.now (node_on self.now.board end) v) end -ℤ leaving_on self.now.board self.now.stretches stored.now volts.now end }
    {
        let g = self.conductance(end / 2);
        if 0 < g {
            return g as i64 * (v - own);
        }
        let at = volts[other];
        if end % 2 == 0 {
            return self.gained(end / 2, own - at, v - at);
        }
        self.gained(end / 2, at - v, at - own)
    }

    // The node at the other end of an end's element.
    pub fn other(&self, end: usize) -> usize
        requires { end < 64 }
        ensures { result ≡ other_on self.now.board end }
    {
        if end % 2 == 0 {
            return self.end_q(end / 2);
        }
        self.end_p(end / 2)
    }

    // The conductance of element j: none where it has a curve.
    pub fn plain_conductance(&self, j: usize) -> u64
        requires { j < 32 }
        ensures { result ≡ plain_conductance self.now.board j }
    {
        if kind::has_curve(self.kind(j)) {
            return 0;
        }
        self.conductance(j)
    }

    // The steepest slope of element j.
    pub fn steepest_slope(&self, j: usize) -> u64
        requires { Laid self.now.board self.now.stretches × (j < count_on self.now.board) }
        ensures { result ≡ steepest_of (branch_on self.now.board self.now.stretches j).law }
    {
        if kind::has_curve(self.kind(j)) {
            return self.curve(j).steepest();
        }
        self.conductance(j)
    }
}
