// Certify: whether a low assignment is the greatest, by a visit of its nodes. Every free node below
// the top is raised by one and waits; a waiting node whose net current is above zero goes back. If
// all get back, nothing higher is low; if the visit sticks, it has come to something that is. Mostly
// all may go back at once, and then none has to be moved: what goes back only raises the others' net
// currents.
ghost use Rattle.std.specs.Prelude.{◌≡◌, true, false, ◌≤◌, ◌<◌, pos, ◌<ℤ◌};
ghost use Rattle.units.specs.Voltage.{InRange};
ghost use Rattle.network.specs.Network.{Free};
ghost use Rattle.circuit.specs.Board.{nodes_on, driven_on, network_on, Ranged};
ghost use Rattle.solve.specs.Search.{Searching};
ghost use Rattle.solve.specs.Visit.{one_up, Raised, Visiting, VisitedAt, VisitedAll, AllGo, Judged};

use crate::point::Point;
use circuit::Circuit;
use units::voltage::Voltage;

// What came of one node: it was back, it waits still, or it goes back.
#[derive(Clone, Copy)]
pub enum Stance {
    Back,
    Waits,
    Goes,
}

// What came of one lap of the nodes: all are back, no node that waits may go back, or some went.
#[derive(Clone, Copy)]
pub enum Lap {
    Through,
    Sticks,
    Went,
}

// One microvolt more, below the top.
fn one_up(v: i64) -> i64
    requires { InRange v }
    ensures { result ≡ one_up v }
{
    let u = Voltage { microvolts: v };
    if u.below_top() {
        return v + 1;
    }
    v
}

// Every free node raised so. They are raised together, so that an element between two of them is not
// evaluated.
fn lift(circuit: &Circuit, stored: &[i64; 32], volts: &[i64; 16], up: &mut Point)
    requires { Searching circuit.now.board circuit.now.stretches stored.now up.old.volts up.old.nets × (up.old.volts ≡ volts.now) }
    ensures { Searching circuit.now.board circuit.now.stretches stored.now up.new.volts up.new.nets × Raised circuit.now.board volts.now up.new.volts }
{
    let nodes = circuit.nodes();
    for i in circuit.driven() + 1..nodes + 1 {
        up.volts[i] = one_up(volts[i]);
    }
    circuit.shift(stored, volts, &up.volts, &mut up.nets);
}

// One node: if it is above where it was and its net current is above zero, it goes back.
fn visit_at(
    circuit: &Circuit,
    stored: &[i64; 32],
    volts: &[i64; 16],
    i: usize,
    up: &mut Point,
) -> Stance
    requires { Searching circuit.now.board circuit.now.stretches stored.now up.old.volts up.old.nets × Free (network_on circuit.now.board circuit.now.stretches) i × Ranged circuit.now.board volts.now }
    ensures { Searching circuit.now.board circuit.now.stretches stored.now up.new.volts up.new.nets × VisitedAt circuit.now.board circuit.now.stretches stored.now volts.now up.old.volts up.new.volts i result }
{
    let v = volts[i];
    if up.volts[i] <= v {
        return Stance::Back;
    }
    if up.nets[i] <= 0 {
        return Stance::Waits;
    }
    up.put(circuit, stored, i, v);
    Stance::Goes
}

// One lap, in the order opposite to a sweep's.
fn visit_all(circuit: &Circuit, stored: &[i64; 32], volts: &[i64; 16], up: &mut Point) -> Lap
    requires { Visiting circuit.now.board circuit.now.stretches stored.now volts.now up.old.volts up.old.nets }
    ensures { Visiting circuit.now.board circuit.now.stretches stored.now volts.now up.new.volts up.new.nets × VisitedAll circuit.now.board circuit.now.stretches stored.now volts.now up.old.volts up.new.volts result }
{
    let nodes = circuit.nodes();
    let mut went = false;
    let mut wait = false;
    for i in (circuit.driven() + 1..nodes + 1).rev() {
        match visit_at(circuit, stored, volts, i, up) {
            Stance::Back => {}
            Stance::Waits => {
                wait = true;
            }
            Stance::Goes => {
                went = true;
            }
        }
    }
    if wait {
        if went {
            return Lap::Went;
        }
        return Lap::Sticks;
    }
    Lap::Through
}

// Whether a node that stands at s, its net current being w, waits to go back to v and may not.
fn sticks(v: i64, s: i64, w: i64) -> bool
    ensures { result ≡ false → v <ℤ s → pos 0 <ℤ w }
{
    v < s && w <= 0
}

// Whether every node that waits may go back as they all stand.
fn all_go(circuit: &Circuit, volts: &[i64; 16], up: &Point) -> bool
    requires { (nodes_on circuit.now.board ≤ 15) × (driven_on circuit.now.board ≤ nodes_on circuit.now.board) }
    ensures { result ≡ true → AllGo circuit.now.board volts.now up.now.volts up.now.nets }
{
    let nodes = circuit.nodes();
    (circuit.driven() + 1..nodes + 1).all(|i| !sticks(volts[i], up.volts[i], up.nets[i]))
}

// The whole visit for `volts`, whether they are the highest; `up` begins as a copy of them and of their net
// currents, and is a higher point if there is one. Nodes are moved only if not all may go back at once.
pub fn certify(circuit: &Circuit, stored: &[i64; 32], volts: &[i64; 16], up: &mut Point) -> bool
    requires { Searching circuit.now.board circuit.now.stretches stored.now up.old.volts up.old.nets × (up.old.volts ≡ volts.now) }
    ensures { Searching circuit.now.board circuit.now.stretches stored.now up.new.volts up.new.nets × Judged circuit.now.board circuit.now.stretches stored.now volts.now up.new.volts result }
{
    lift(circuit, stored, volts, up);
    if all_go(circuit, volts, up) {
        return true;
    }
    loop {
        match visit_all(circuit, stored, volts, up) {
            Lap::Through => return true,
            Lap::Sticks => return false,
            Lap::Went => {}
        }
    }
}
