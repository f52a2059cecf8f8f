// Solve: the highest voltages of a sample, or that there are none in range. In what is given the driven
// nodes stand at their drives; what stands at the free nodes is a proposal, of which nothing is asked and
// on which nothing of the answer depends.
ghost use Rattle.std.specs.Prelude.{◌≡◌, true, false, ◌≤◌, length};
ghost use Rattle.network.specs.Network.{node_limit};
ghost use Rattle.circuit.specs.Board.{nodes_on, driven_on, Evaluable};
ghost use Rattle.solve.specs.Answer.{seat_of, Seated, Start, Solvable, Solved};

use crate::point::Point;
use crate::settle::NoneInRange;
use crate::{climb, settle};
use circuit::{Circuit, places};
use units::voltage::Voltage;

// Where a free node begins: at the top, or where it is given, brought into range.
fn seat_at(top: bool, v: i64) -> i64
    ensures { result ≡ seat_of top v }
{
    if top {
        return Voltage::LIMIT;
    }
    Voltage::clamped(v)
}

// Ground at zero, the driven nodes at their drives and every free node so. Place by place, as a whole
// array that is copied just after one of its places was stored has to wait for it.
fn seat(circuit: &Circuit, top: bool, given: &[i64; 16], volts: &mut [i64; 16])
    requires { (nodes_on circuit.now.board ≤ node_limit) × (driven_on circuit.now.board ≤ nodes_on circuit.now.board) × (length volts.old ≡ 16) }
    ensures { Seated circuit.now.board top given.now volts.new }
{
    let nodes = circuit.nodes();
    let first = circuit.driven() + 1;
    volts[0] = 0;
    places::take(given, 1, first, volts);
    for i in first..nodes + 1 {
        volts[i] = seat_at(top, given[i]);
    }
}

// Whether no low assignment passes these voltages, by document 01's test of a start: net current at or
// above zero at each free node.
fn is_start(circuit: &Circuit, stored: &[i64; 32], volts: &[i64; 16]) -> bool
    requires { Evaluable circuit.now.board circuit.now.stretches stored.now volts.now }
    ensures { result ≡ true → Start circuit.now.board circuit.now.stretches stored.now volts.now }
{
    let nodes = circuit.nodes();
    (circuit.driven() + 1..nodes + 1).all(|i| circuit.net_current(stored, volts, i) >= 0)
}

// From the top of the range.
fn from_top(
    circuit: &Circuit,
    stored: &[i64; 32],
    given: &[i64; 16],
    at: &mut Point,
) -> Result<(), NoneInRange>
    requires { Solvable circuit.now.board circuit.now.stretches stored.now given.now × (length at.old.volts ≡ 16) }
    ensures { Solved circuit.now.board circuit.now.stretches stored.now given.now at.new.volts result }
{
    seat(circuit, true, given, &mut at.volts);
    at.nets = circuit.net_currents(stored, &at.volts);
    settle::settle(circuit, stored, at)
}

// The answer at the nodes of `at`, or that there is none; what stood there before does not count. From the
// proposal, seated, then settled, certified, climbed. Where there is nothing below it, that decides only if it
// is a start, for which it is seated once more; else the top of the range does.
pub fn solve(
    circuit: &Circuit,
    stored: &[i64; 32],
    given: &[i64; 16],
    at: &mut Point,
) -> Result<(), NoneInRange>
    requires { Solvable circuit.now.board circuit.now.stretches stored.now given.now × (length at.old.volts ≡ 16) }
    ensures { Solved circuit.now.board circuit.now.stretches stored.now given.now at.new.volts result }
{
    seat(circuit, false, given, &mut at.volts);
    at.nets = circuit.net_currents(stored, &at.volts);
    match settle::settle(circuit, stored, at) {
        Ok(()) => {
            climb::climb(circuit, stored, at);
            Ok(())
        }
        Err(none) => {
            seat(circuit, false, given, &mut at.volts);
            if is_start(circuit, stored, &at.volts) {
                return Err(none);
            }
            from_top(circuit, stored, given, at)
        }
    }
}
