// The tangent of an element: the straight line that its current follows near a voltage. A curve's is
// the line of the stretch that the voltage lies in; any other element is a line already.
ghost use Rattle.std.specs.Prelude.{◌≡◌, ◌<◌, true};
ghost use Rattle.network.specs.Kind.{has_curve};
ghost use Rattle.stretch.specs.Stretch.{CurveReady};
ghost use Rattle.circuit.specs.Board.{count_on, kind_on, Laid, Ranged, Evaluable};

use circuit::Circuit;
use network::kind;
use stretch::curve::Curve;
use stretch::stretches;

// The current at the voltage v is slope × v + at_zero.
#[derive(Clone, Copy, PartialEq)]
pub struct Tangent {
    pub slope: f64,
    pub at_zero: f64,
}

impl Tangent {
    // That of an element that carries no current.
    pub const NONE: Tangent = Tangent {
        slope: 0.0,
        at_zero: 0.0,
    };
}

// That of a curve at v.
fn on_curve(curve: &Curve, v: i64) -> Tangent
    requires { CurveReady curve.now.stretches.now curve.now.first curve.now.breakpoints }
{
    let row = curve.first + curve.stretch(v);
    Tangent {
        slope: std::num::nearest_u64_to_f64(stretches::slope(curve.stretches, row)),
        at_zero: std::num::nearest_i64_to_f64(stretches::at_zero(curve.stretches, row)),
    }
}

// That of element j, which has a curve, at the voltage across it.
pub fn of_curve(circuit: &Circuit, volts: &[i64; 16], j: usize) -> Tangent
    requires { Laid circuit.now.board circuit.now.stretches × Ranged circuit.now.board volts.now × (j < count_on circuit.now.board) × (has_curve (kind_on circuit.now.board j) ≡ true) }
{
    on_curve(&circuit.curve(j), circuit.across(volts, j))
}

// That of element j, whatever it is.
pub fn of_element(circuit: &Circuit, stored: &[i64; 32], volts: &[i64; 16], j: usize) -> Tangent
    requires { Evaluable circuit.now.board circuit.now.stretches stored.now volts.now × (j < count_on circuit.now.board) }
{
    if kind::has_curve(circuit.kind(j)) {
        return of_curve(circuit, volts, j);
    }
    Tangent {
        slope: std::num::nearest_u64_to_f64(circuit.conductance(j)),
        at_zero: -std::num::nearest_i64_to_f64(stored[j]),
    }
}
