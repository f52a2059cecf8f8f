// Settle: from voltages in range down to the greatest low assignment at or below them, or that
// there is none in range. A sweep lowers every free node whose net current is above zero; leaps
// take the nodes that sank in it further, from the third sweep on: before that a search that ends soon
// would pay for them. A search never passes a low assignment: that is all that has to be kept, and
// voltages fall, so it ends.
ghost use Rattle.std.specs.Prelude.{◌≡◌, ◌^◌, ◌≤◌, ◌<◌, pos, nat_abs, ◌-ℤ◌};
ghost use Rattle.units.specs.Integer.{rounded_up};
ghost use Rattle.units.specs.Voltage.{InRange};
ghost use Rattle.network.specs.Network.{Free, reading};
ghost use Rattle.network.specs.Sample.{Low};
ghost use Rattle.circuit.specs.Board.{network_on};
ghost use Rattle.solve.specs.Search.{Searching, Fell, LowAt, net_bound, Came};

use crate::point::Point;
use crate::{leap, plunge};
use circuit::Circuit;
use units::signed;
use units::voltage::Voltage;

// That there are no low voltages in range at or below those that a search began with.
#[derive(Clone, Copy)]
pub struct NoneInRange;

// v less the net current f over the steepest sum s, rounded up.
fn lower_by(v: i64, f: i64, s: u64) -> i64
    requires { InRange v × (nat_abs f ≤ net_bound) × (0 < s) × (s < 2 ^ 36) }
    ensures { result ≡ v -ℤ pos (rounded_up (nat_abs f) s) }
{
    v - signed::rounded_up(f.unsigned_abs(), s) as i64
}

// Step: one node lowered by as much as its steepest sum allows, where its net current is above zero, and
// then further if that left much of it. Whether it was lowered.
fn step(
    circuit: &Circuit,
    stored: &[i64; 32],
    at: &mut Point,
    i: usize,
) -> Result<bool, NoneInRange>
    requires { Searching circuit.now.board circuit.now.stretches stored.now at.old.volts at.old.nets × Free (network_on circuit.now.board circuit.now.stretches) i }
    ensures { Searching circuit.now.board circuit.now.stretches stored.now at.new.volts at.new.nets × Fell (LowAt circuit.now.board circuit.now.stretches stored.now at.old.volts i) circuit.now.board circuit.now.stretches stored.now at.old.volts at.new.volts result }
{
    let f = at.nets[i];
    if f <= 0 {
        return Ok(false);
    }
    let from = at.volts[i];
    let v = lower_by(from, f, circuit.steepest_sum(i));
    let u = Voltage { microvolts: v };
    if !u.in_range() {
        return Err(NoneInRange);
    }
    at.put(circuit, stored, i, v);
    plunge::plunge(circuit, stored, i, from, f, at);
    Ok(true)
}

// A step at every free node, in the order of their numbers. Whether one was lowered.
fn sweep(circuit: &Circuit, stored: &[i64; 32], at: &mut Point) -> Result<bool, NoneInRange>
    requires { Searching circuit.now.board circuit.now.stretches stored.now at.old.volts at.old.nets }
    ensures { Searching circuit.now.board circuit.now.stretches stored.now at.new.volts at.new.nets × Fell (Low (network_on circuit.now.board circuit.now.stretches) (reading stored.now) (reading at.old.volts)) circuit.now.board circuit.now.stretches stored.now at.old.volts at.new.volts result }
{
    let nodes = circuit.nodes();
    let mut moved = false;
    for i in circuit.driven() + 1..nodes + 1 {
        moved |= step(circuit, stored, at, i)?;
    }
    Ok(moved)
}

// A sweep, and after two of them also leaps of what sank in it.
fn descend(
    circuit: &Circuit,
    stored: &[i64; 32],
    sweeps: u64,
    at: &mut Point,
) -> Result<bool, NoneInRange>
    requires { Searching circuit.now.board circuit.now.stretches stored.now at.old.volts at.old.nets }
    ensures { Searching circuit.now.board circuit.now.stretches stored.now at.new.volts at.new.nets × Fell (Low (network_on circuit.now.board circuit.now.stretches) (reading stored.now) (reading at.old.volts)) circuit.now.board circuit.now.stretches stored.now at.old.volts at.new.volts result }
{
    if sweeps < 2 {
        return sweep(circuit, stored, at);
    }
    let before = at.volts;
    let moved = sweep(circuit, stored, at)?;
    if moved {
        leap::leaps(circuit, stored, &before, at);
    }
    Ok(moved)
}

// Settle: sweeps and leaps until no net current is above zero.
pub fn settle(circuit: &Circuit, stored: &[i64; 32], at: &mut Point) -> Result<(), NoneInRange>
    requires { Searching circuit.now.board circuit.now.stretches stored.now at.old.volts at.old.nets }
    ensures { Searching circuit.now.board circuit.now.stretches stored.now at.new.volts at.new.nets × Came circuit.now.board circuit.now.stretches stored.now at.old.volts at.new.volts result }
{
    let mut sweeps: u64 = 0;
    while descend(circuit, stored, sweeps, at)? {
        if sweeps < 2 {
            sweeps += 1;
        }
    }
    Ok(())
}
