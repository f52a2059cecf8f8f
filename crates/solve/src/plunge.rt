// Plunge: one node that took a step sinks on, by the slope where it stands. A step by the steepest sum leaves
// most of the net current where a diode is not at its steepest, and what it took off tells the slope there.
// It is tried in a copy, and the net current at the far end is what proves it.
ghost use Rattle.std.specs.Prelude.{◌≡◌, true, ◌^◌, ◌≤◌, ◌<◌, pos, ◌≤ℤ◌, ◌<ℤ◌};
ghost use Rattle.units.specs.Voltage.{InRange};
ghost use Rattle.network.specs.Network.{Free, reading};
ghost use Rattle.circuit.specs.Board.{network_on};
ghost use Rattle.solve.specs.Search.{Searching, Down};

use crate::point::Point;
use circuit::Circuit;
use units::voltage::Voltage;

// No sum of slopes at a node reaches this.
const STEEPEST: u64 = 68719476736;

// How much further a node seems to have to sink that came from b to v, where its net current fell from
// `before` to `after`. Nothing else is promised of it: it is a guess.
fn more(b: i64, v: i64, before: i64, after: i64) -> u64
    requires { InRange b × InRange v }
    ensures { result ≤ 2 ^ 26 }
{
    let way = (b - v).unsigned_abs();
    let had = before.unsigned_abs();
    let left = after.unsigned_abs();
    if had <= left {
        return 0;
    }
    if way == 0 {
        return 0;
    }
    let slope = (had - left) / way;
    if STEEPEST < slope {
        return 0;
    }
    let t = left / (slope + 1);
    if t < 67108864 { t } else { 67108864 }
}

// Where a node at v comes to that sinks by t: there, if that is in range.
fn sunk(v: i64, t: u64) -> i64
    requires { InRange v × (t ≤ 2 ^ 26) }
    ensures { InRange result × (result ≤ℤ v) }
{
    let u = v - t as i64;
    let there = Voltage { microvolts: u };
    if there.in_range() {
        return u;
    }
    v
}

// Whether the net current of node i is above zero.
fn is_high(nets: &[i64; 16], i: usize) -> bool
    requires { i < 16 }
    ensures { result ≡ true → pos 0 <ℤ reading nets.now i }
{
    0 < nets[i]
}

// Node i, whose net current was `before` at b, sinks on so, if its net current is above zero there too.
pub fn plunge(circuit: &Circuit, stored: &[i64; 32], i: usize, b: i64, before: i64, at: &mut Point)
    requires { Searching circuit.now.board circuit.now.stretches stored.now at.old.volts at.old.nets × Free (network_on circuit.now.board circuit.now.stretches) i × InRange b }
    ensures { Searching circuit.now.board circuit.now.stretches stored.now at.new.volts at.new.nets × Down circuit.now.board circuit.now.stretches stored.now at.old.volts at.new.volts }
{
    if !is_high(&at.nets, i) {
        return;
    }
    let v = at.volts[i];
    let t = more(b, v, before, at.nets[i]);
    if t == 0 {
        return;
    }
    let u = sunk(v, t);
    let mut far = *at;
    far.put(circuit, stored, i, u);
    if is_high(&far.nets, i) {
        *at = far;
    }
}
