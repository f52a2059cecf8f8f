// The proposer for a circuit with one free node: Newton with a line in place of a matrix. Where the line
// of the node's net current crosses zero is exact as soon as it is the line at the new place too.
ghost use Rattle.std.specs.Prelude.{◌/◌, ◌<◌, ◌≤◌};
ghost use Rattle.circuit.specs.Board.{count_on, nodes_on, Evaluable};
ghost use Rattle.guess.specs.Proposal.{Standing};

use crate::newton::Ending;
use crate::tangent::Tangent;
use crate::{tangent, whole};
use circuit::Circuit;
use units::voltage::Voltage;

// How often the node is moved at most.
const ROUNDS: u64 = 12;

fn float_at(volts: &[i64; 16], i: usize) -> f64
    requires { i ≤ 15 }
{
    let v = Voltage {
        microvolts: volts[i],
    };
    v.to_f64()
}

// What leaves the node at an end by the end's element, as a line over the node's own voltage.
fn leaving(circuit: &Circuit, stored: &[i64; 32], volts: &[i64; 16], end: usize) -> Tangent
    requires { Evaluable circuit.now.board circuit.now.stretches stored.now volts.now × (end / 2 < count_on circuit.now.board) }
{
    let t = tangent::of_element(circuit, stored, volts, end / 2);
    let other = t.slope * float_at(volts, circuit.other(end));
    if end % 2 == 0 {
        return Tangent {
            slope: t.slope,
            at_zero: t.at_zero - other,
        };
    }
    Tangent {
        slope: t.slope,
        at_zero: -t.at_zero - other,
    }
}

// The line of the node's net current where it stands.
fn line(circuit: &Circuit, stored: &[i64; 32], volts: &[i64; 16], node: usize) -> Tangent
    requires { Evaluable circuit.now.board circuit.now.stretches stored.now volts.now × (node ≤ nodes_on circuit.now.board) }
{
    let after = circuit.start(node + 1);
    let mut slope = std::num::nearest_u64_to_f64(circuit.leak());
    let mut at_zero: f64 = 0.0;
    for k in circuit.start(node)..after {
        let t = leaving(circuit, stored, volts, circuit.end(k));
        slope += t.slope;
        at_zero += t.at_zero;
    }
    Tangent { slope, at_zero }
}

// The last whole microvolt before the line is above zero.
fn crossing(t: Tangent) -> f64 {
    whole::floor(-t.at_zero / t.slope)
}

// How much of the net current is left at v.
fn left(t: Tangent, v: f64) -> f64 {
    whole::size(t.slope * v + t.at_zero)
}

// The node put at the voltage that x is. False if it is none.
fn place_node(circuit: &Circuit, x: f64, node: usize, volts: &mut [i64; 16]) -> bool
    requires { Standing circuit.now.board volts.old × (node ≤ 15) }
    ensures { Standing circuit.now.board volts.new }
{
    match Voltage::from_f64(x) {
        Some(v) => {
            let at = v.microvolts;
            volts[node] = at;
            true
        }
        None => false,
    }
}

// The node moved until its line stays the same, or often enough. Without a curve it can't change.
pub fn slide(
    circuit: &Circuit,
    stored: &[i64; 32],
    node: usize,
    curved: bool,
    volts: &mut [i64; 16],
) -> Ending
    requires { Evaluable circuit.now.board circuit.now.stretches stored.now volts.old × Standing circuit.now.board volts.old × (node ≤ nodes_on circuit.now.board) }
    ensures { Standing circuit.now.board volts.new }
{
    let mut t = line(circuit, stored, volts, node);
    let mut x: f64 = 0.0;
    for _ in 0..ROUNDS {
        x = crossing(t);
        if !place_node(circuit, x, node, volts) {
            return Ending::Broken;
        }
        if !curved {
            return Ending::Settled(left(t, x));
        }
        let next = line(circuit, stored, volts, node);
        if next == t {
            return Ending::Settled(left(next, x));
        }
        t = next;
    }
    Ending::Spent(left(t, x))
}
