// Leap: what sank together sinks on together. It is tried in a copy, and the net currents at the far end
// are what proves it.
ghost use Rattle.std.specs.Prelude.{◌≡◌, true, ◌^◌, ◌≤◌, pos, ◌-ℤ◌, ◌*ℤ◌, ◌<ℤ◌};
ghost use Rattle.units.specs.Voltage.{InRange, bottom};
ghost use Rattle.network.specs.Network.{Free, reading};
ghost use Rattle.circuit.specs.Board.{nodes_on, driven_on, network_on, Ranged};
ghost use Rattle.solve.specs.Search.{Searching, Down};
ghost use Rattle.solve.specs.Leap.{Reached, Led, Sinkable, LandedAt, Lands};

use crate::point::Point;
use circuit::Circuit;
use units::voltage::Voltage;

// m times as far again as from b to v.
fn along(b: i64, v: i64, m: u64) -> i64
    requires { InRange b × InRange v × (m ≤ 2 ^ 26) }
    ensures { result ≡ v -ℤ pos m *ℤ (b -ℤ v) }
{
    v - m as i64 * (b - v)
}

// Where a leap takes a node that came from b to v: there, if that is lower and above the bottom.
fn reached(b: i64, v: i64, m: u64) -> i64
    requires { InRange b × InRange v × (m ≤ 2 ^ 26) }
    ensures { Reached v result }
{
    let u = along(b, v, m);
    let there = Voltage { microvolts: u };
    if u <= v {
        if there.above_bottom() {
            return u;
        }
    }
    v
}

// All free nodes so.
fn lead(
    circuit: &Circuit,
    stored: &[i64; 32],
    from: &[i64; 16],
    volts: &[i64; 16],
    m: u64,
    far: &mut Point,
)
    requires { Searching circuit.now.board circuit.now.stretches stored.now far.old.volts far.old.nets × Ranged circuit.now.board from.now × (m ≤ 2 ^ 26) × (far.old.volts ≡ volts.now) }
    ensures { Searching circuit.now.board circuit.now.stretches stored.now far.new.volts far.new.nets × Led circuit.now.board volts.now far.new.volts }
{
    let nodes = circuit.nodes();
    for i in circuit.driven() + 1..nodes + 1 {
        let u = reached(from[i], volts[i], m);
        far.put(circuit, stored, i, u);
    }
}

// Whether some node leapt. Nothing is promised of it: it only ends the leaps.
fn leapt(circuit: &Circuit, volts: &[i64; 16], far: &[i64; 16]) -> bool
    requires { (nodes_on circuit.now.board ≤ 15) × (driven_on circuit.now.board ≤ nodes_on circuit.now.board) }
{
    let nodes = circuit.nodes();
    (circuit.driven() + 1..nodes + 1).any(|i| far[i] < volts[i])
}

// One node at the far end. If it leapt, its net current has to be above zero there, and it is lowered by
// one more. False if that isn't so.
fn land_at(
    circuit: &Circuit,
    stored: &[i64; 32],
    volts: &[i64; 16],
    i: usize,
    far: &mut Point,
) -> bool
    requires { Searching circuit.now.board circuit.now.stretches stored.now far.old.volts far.old.nets × Free (network_on circuit.now.board circuit.now.stretches) i × (reading far.old.volts i <ℤ reading volts.now i → bottom <ℤ reading far.old.volts i) }
    ensures { Searching circuit.now.board circuit.now.stretches stored.now far.new.volts far.new.nets × (result ≡ true → LandedAt circuit.now.board circuit.now.stretches stored.now volts.now far.old.volts i far.new.volts) }
{
    let u = far.volts[i];
    if volts[i] <= u {
        return true;
    }
    let high = 0 < far.nets[i];
    if !high {
        return false;
    }
    far.put(circuit, stored, i, u - 1);
    true
}

// Every free node so, in the order of their numbers. False as soon as one is.
fn land(circuit: &Circuit, stored: &[i64; 32], volts: &[i64; 16], far: &mut Point) -> bool
    requires { Searching circuit.now.board circuit.now.stretches stored.now far.old.volts far.old.nets × Sinkable circuit.now.board volts.now far.old.volts }
    ensures { Searching circuit.now.board circuit.now.stretches stored.now far.new.volts far.new.nets × (result ≡ true → Lands circuit.now.board circuit.now.stretches stored.now volts.now far.old.volts far.new.volts) }
{
    let nodes = circuit.nodes();
    for i in circuit.driven() + 1..nodes + 1 {
        if !land_at(circuit, stored, volts, i, far) {
            return false;
        }
    }
    true
}

// Leap: the nodes that came from `from` to where they are go m times as far again, if the far end proves it.
// Whether some node did.
fn leap(circuit: &Circuit, stored: &[i64; 32], from: &[i64; 16], m: u64, at: &mut Point) -> bool
    requires { Searching circuit.now.board circuit.now.stretches stored.now at.old.volts at.old.nets × Ranged circuit.now.board from.now × (m ≤ 2 ^ 26) }
    ensures { Searching circuit.now.board circuit.now.stretches stored.now at.new.volts at.new.nets × Down circuit.now.board circuit.now.stretches stored.now at.old.volts at.new.volts }
{
    let mut far = *at;
    lead(circuit, stored, from, &at.volts, m, &mut far);
    if !leapt(circuit, &at.volts, &far.volts) {
        return false;
    }
    if land(circuit, stored, &at.volts, &mut far) {
        *at = far;
        return true;
    }
    false
}

// Leaps of one, two, four .. times what was gained, as long as they hold and some node leaps.
pub fn leaps(circuit: &Circuit, stored: &[i64; 32], from: &[i64; 16], at: &mut Point)
    requires { Searching circuit.now.board circuit.now.stretches stored.now at.old.volts at.old.nets × Ranged circuit.now.board from.now }
    ensures { Searching circuit.now.board circuit.now.stretches stored.now at.new.volts at.new.nets × Down circuit.now.board circuit.now.stretches stored.now at.old.volts at.new.volts }
{
    let mut m: u64 = 1;
    while m < 67108864 && leap(circuit, stored, from, m, at) {
        m = 2 * m;
    }
}
