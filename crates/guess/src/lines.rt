// The lines that the elements are taken as, and what is kept of them from sample to sample: each
// element's tangent, the matrix of their slopes, and its inverse. They stay as long as no curve is on
// another line, which is most of the time; where one is, only its slope's change is brought in.
ghost use Rattle.std.specs.Prelude.{◌<◌, ◌≤◌};
ghost use Rattle.circuit.specs.Board.{nodes_on, driven_on, count_on, Laid, Ranged, Evaluable};

use crate::matrix::{self, Ends, Matrix, Singular};
use crate::memory::Memory;
use crate::rows::Rows;
use crate::tangent::{self, Tangent};
use crate::whole;
use circuit::Circuit;
use network::kind;
use units::voltage::Voltage;

// After this many updates the inverse is made anew, since each loses some digits.
const UPDATES: usize = 8;

// The matrix of the leaks alone.
fn leaks(circuit: &Circuit) -> Matrix
    requires { nodes_on circuit.now.board ≤ 15 }
{
    let leak = std::num::nearest_u64_to_f64(circuit.leak());
    let mut m = [[0.0f64; 15]; 15];
    for k in 0..circuit.nodes() {
        m[k][k] = leak;
    }
    m
}

// The nodes that element j joins.
fn ends(circuit: &Circuit, j: usize) -> Ends
    requires { Laid circuit.now.board circuit.now.stretches × (j < count_on circuit.now.board) }
{
    Ends {
        p: circuit.end_p(j),
        q: circuit.end_q(j),
    }
}

// All tangents at these voltages, and the matrix of their slopes.
fn drawn(
    circuit: &Circuit,
    stored: &[i64; 32],
    volts: &[i64; 16],
    lines: &mut [Tangent; 32],
) -> Matrix
    requires { Evaluable circuit.now.board circuit.now.stretches stored.now volts.now }
{
    let mut m = leaks(circuit);
    for j in 0..circuit.count() {
        let t = tangent::of_element(circuit, stored, volts, j);
        matrix::join(&mut m, ends(circuit, j), t.slope);
        lines[j] = t;
    }
    m
}

// Everything from nothing.
fn anew(
    circuit: &Circuit,
    stored: &[i64; 32],
    volts: &[i64; 16],
    memory: &mut Memory,
) -> Result<(), Singular>
    requires { Evaluable circuit.now.board circuit.now.stretches stored.now volts.now }
{
    memory.slopes = drawn(circuit, stored, volts, &mut memory.lines);
    memory.lost();
    matrix::invert(&memory.slopes, Rows::free(circuit), &mut memory.inverse)?;
    memory.made();
    Ok(())
}

// Notes which elements have curves.
pub fn note_curves(circuit: &Circuit, memory: &mut Memory)
    requires { count_on circuit.now.board ≤ 32 }
{
    let mut n: usize = 0;
    for j in 0..circuit.count() {
        if kind::has_curve(circuit.kind(j)) {
            memory.curves[n] = j;
            n += 1;
        }
    }
    memory.curve_count = n;
}

// The tangent of element j at these voltages, if it has a curve; else what is kept of it.
fn present(circuit: &Circuit, volts: &[i64; 16], lines: &[Tangent; 32], j: usize) -> Tangent
    requires { Laid circuit.now.board circuit.now.stretches × Ranged circuit.now.board volts.now × (j < count_on circuit.now.board) }
{
    if kind::has_curve(circuit.kind(j)) {
        return tangent::of_curve(circuit, volts, j);
    }
    lines[j]
}

// Whether element j is on another line than is kept of it.
fn strays(circuit: &Circuit, volts: &[i64; 16], lines: &[Tangent; 32], j: usize) -> bool
    requires { Laid circuit.now.board circuit.now.stretches × Ranged circuit.now.board volts.now }
{
    j < circuit.count() && present(circuit, volts, lines, j) != lines[j]
}

// How many of the curves do.
fn strayed(circuit: &Circuit, volts: &[i64; 16], memory: &Memory) -> usize
    requires { Laid circuit.now.board circuit.now.stretches × Ranged circuit.now.board volts.now }
    ensures { result ≤ 32 }
{
    memory
        .curves()
        .iter()
        .filter(|j| strays(circuit, volts, &memory.lines, **j))
        .count()
}

// Element j takes its line at these voltages, in the matrix and in the inverse, unless the inverse can't
// follow.
fn retake(
    circuit: &Circuit,
    volts: &[i64; 16],
    j: usize,
    memory: &mut Memory,
) -> Result<(), Singular>
    requires { Laid circuit.now.board circuit.now.stretches × Ranged circuit.now.board volts.now }
{
    if circuit.count() <= j {
        return Ok(());
    }
    let t = present(circuit, volts, &memory.lines, j);
    let more = t.slope - memory.lines[j].slope;
    memory.lines[j] = t;
    if more == 0.0 {
        return Ok(());
    }
    let ends = ends(circuit, j);
    matrix::join(&mut memory.slopes, ends, more);
    memory.updated();
    matrix::update(&mut memory.inverse, ends, more, Rows::free(circuit))
}

// .. so every curve.
fn retaken(circuit: &Circuit, volts: &[i64; 16], memory: &mut Memory) -> Result<(), Singular>
    requires { Laid circuit.now.board circuit.now.stretches × Ranged circuit.now.board volts.now }
{
    for k in 0..memory.curves().len() {
        retake(circuit, volts, memory.curves[k], memory)?;
    }
    Ok(())
}

// Whether so few curves strayed that updates cost less than an inversion: one for three free nodes at most.
fn few(circuit: &Circuit, others: usize) -> bool
    requires { driven_on circuit.now.board ≤ nodes_on circuit.now.board }
{
    others <= (circuit.nodes() - circuit.driven()) / 3
}

// The inverse of the lines at these voltages: updated where few curves have strayed, else made anew.
pub fn refreshed(
    circuit: &Circuit,
    stored: &[i64; 32],
    volts: &[i64; 16],
    memory: &mut Memory,
) -> Result<(), Singular>
    requires { Evaluable circuit.now.board circuit.now.stretches stored.now volts.now }
{
    let Some(updates) = memory.updates else {
        note_curves(circuit, memory);
        return anew(circuit, stored, volts, memory);
    };
    let others = strayed(circuit, volts, memory);
    if others == 0 {
        return Ok(());
    }
    if updates < UPDATES && few(circuit, others) && retaken(circuit, volts, memory).is_ok() {
        return Ok(());
    }
    anew(circuit, stored, volts, memory)
}

// Whether two lines are one, or meet within a microvolt of v.
fn meet(one: Tangent, other: Tangent, v: f64) -> bool {
    let slope = one.slope - other.slope;
    let gap = slope * v + (one.at_zero - other.at_zero);
    whole::size(gap) <= whole::size(slope)
}

// Whether element j stands on the line that is kept of it.
fn holds(circuit: &Circuit, volts: &[i64; 16], lines: &[Tangent; 32], j: usize) -> bool
    requires { Laid circuit.now.board circuit.now.stretches × Ranged circuit.now.board volts.now }
{
    if circuit.count() <= j {
        return true;
    }
    let v = Voltage {
        microvolts: circuit.across(volts, j),
    };
    let t = present(circuit, volts, lines, j);
    meet(lines[j], t, v.to_f64())
}

// .. and every curve.
pub fn hold(circuit: &Circuit, volts: &[i64; 16], memory: &Memory) -> bool
    requires { Laid circuit.now.board circuit.now.stretches × Ranged circuit.now.board volts.now }
{
    memory
        .curves()
        .iter()
        .all(|j| holds(circuit, volts, &memory.lines, *j))
}
