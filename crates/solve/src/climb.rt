// Climb: from a low assignment up to the greatest. Certify says whether it is that, or comes to a higher
// one; the nodes that rose there go on as far as their net currents seem to allow, and settle brings them
// down to something low. That is nowhere below what certify came to, however far they went: a search
// downwards passes nothing that is low.
ghost use Rattle.std.specs.Prelude.{◌^◌, ◌≤◌, ◌≤ℤ◌};
ghost use Rattle.units.specs.Voltage.{InRange};
ghost use Rattle.network.specs.Network.{reading};
ghost use Rattle.network.specs.Sample.{Low};
ghost use Rattle.circuit.specs.Board.{nodes_on, driven_on, network_on};
ghost use Rattle.solve.specs.Search.{Searching};
ghost use Rattle.solve.specs.Climb.{Further, Topped};

use crate::point::Point;
use crate::{certify, settle};
use circuit::Circuit;
use units::voltage::Voltage;

// So many turns go as far as the lines say.
const TURNS: u64 = 1024;

// How far the nodes that rose may go on, by a node that rose from v to s: its net current was `before`
// and is `after`, both not above zero. At most t.
fn stride_at(t: u64, v: i64, s: i64, before: i64, after: i64) -> u64
    requires { t ≤ 2 ^ 26 }
    ensures { result ≤ 2 ^ 26 }
{
    if s <= v {
        return t;
    }
    let was = before.unsigned_abs();
    let left = after.unsigned_abs();
    if was <= left {
        return t;
    }
    let steps = left / (was - left);
    if steps < t {
        return steps;
    }
    t
}

// .. by all of them, `low` being where they rose from and `high` where they are. Nothing else is promised of
// it: it is a guess.
fn stride(circuit: &Circuit, low: &Point, high: &Point) -> u64
    requires { (nodes_on circuit.now.board ≤ 15) × (driven_on circuit.now.board ≤ nodes_on circuit.now.board) }
    ensures { result ≤ 2 ^ 26 }
{
    let nodes = circuit.nodes();
    let mut t: u64 = 67108864;
    for i in circuit.driven() + 1..nodes + 1 {
        t = stride_at(t, low.volts[i], high.volts[i], low.nets[i], high.nets[i]);
    }
    t
}

// How far they go on. After TURNS turns at least as far as `reach`: where they bring little the lines were no
// guide, and a search downwards from too high is the shorter way.
fn farther(t: u64, reach: u64) -> u64
    requires { (t ≤ 2 ^ 26) × (reach ≤ 2 ^ 26) }
    ensures { result ≤ 2 ^ 26 }
{
    if reach < TURNS {
        return t;
    }
    if t < reach {
        return reach;
    }
    t
}

// `reach` counts turns up to TURNS, and is microvolts from there on: twice as many each time, up to half the
// range.
fn onward(reach: u64) -> u64
    requires { reach ≤ 2 ^ 26 }
    ensures { result ≤ 2 ^ 26 }
{
    if reach < TURNS {
        return reach + 1;
    }
    if reach < 33554432 {
        return 2 * reach;
    }
    reach
}

// Where a node that rose from v to s goes on to: t higher, or to the top. Another stays.
fn further(v: i64, s: i64, t: u64) -> i64
    requires { InRange s × (t ≤ 2 ^ 26) }
    ensures { InRange result × (s ≤ℤ result) }
{
    if s <= v {
        return s;
    }
    Voltage::clamped(s + t as i64)
}

// Every free node so.
fn raise(circuit: &Circuit, stored: &[i64; 32], volts: &[i64; 16], t: u64, high: &mut Point)
    requires { Searching circuit.now.board circuit.now.stretches stored.now high.old.volts high.old.nets × (t ≤ 2 ^ 26) }
    ensures { Searching circuit.now.board circuit.now.stretches stored.now high.new.volts high.new.nets × Further circuit.now.board high.old.volts high.new.volts }
{
    let nodes = circuit.nodes();
    for i in circuit.driven() + 1..nodes + 1 {
        let u = further(volts[i], high.volts[i], t);
        high.put(circuit, stored, i, u);
    }
}

// Climb: certified, or higher and certified again. Settle finds something each time, as what certify came to is
// low and in range: its answer is never an error.
pub fn climb(circuit: &Circuit, stored: &[i64; 32], at: &mut Point)
    requires { Searching circuit.now.board circuit.now.stretches stored.now at.old.volts at.old.nets × Low (network_on circuit.now.board circuit.now.stretches) (reading stored.now) (reading at.old.volts) }
    ensures { Topped circuit.now.board circuit.now.stretches stored.now at.old.volts at.new.volts }
{
    let mut reach: u64 = 0;
    loop {
        let mut up = *at;
        if certify::certify(circuit, stored, &at.volts, &mut up) {
            return;
        }
        let t = farther(stride(circuit, at, &up), reach);
        reach = onward(reach);
        raise(circuit, stored, &at.volts, t, &mut up);
        *at = up;
        settle::settle(circuit, stored, at).unwrap();
    }
}
