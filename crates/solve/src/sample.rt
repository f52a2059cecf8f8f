// One sample: its drives tested, its voltages found, its stored currents advanced. Each refusal leaves
// the stored currents as they were.
ghost use Rattle.std.specs.Prelude.{true, ◌≡◌, ◌+◌, ◌≤◌, ◌<◌, length};
ghost use Rattle.units.specs.declared.number.Number.TheVariants.{Rail};
ghost use Rattle.circuit.specs.Board.{nodes_on, driven_on, network_on};
ghost use Rattle.circuit.specs.Places.{Taken};
ghost use Rattle.solve.specs.Answer.{drives_at};
ghost use Rattle.solve.specs.Sample.{DrivesTested, TopTested, Playable, Voiced, Leaves};

use crate::answer;
use crate::point::Point;
use crate::settle::NoneInRange;
use circuit::{Circuit, places};
use units::number::Number;
use units::voltage::Voltage;

// Whether every driven node stands at a legal drive.
fn drives_legal(circuit: &Circuit, volts: &[i64; 16]) -> bool
    requires { driven_on circuit.now.board ≤ 15 }
    ensures { DrivesTested circuit.now.board volts.now result }
{
    (0..circuit.driven()).all(|j| {
        let v = Voltage {
            microvolts: volts[j + 1],
        };
        v.in_drive()
    })
}

// Whether some free node stands at the top of the range.
fn at_top(circuit: &Circuit, volts: &[i64; 16]) -> bool
    requires { (nodes_on circuit.now.board ≤ 15) × (driven_on circuit.now.board ≤ nodes_on circuit.now.board) }
    ensures { TopTested circuit.now.board volts.now result }
{
    let nodes = circuit.nodes();
    (circuit.driven() + 1..nodes + 1).any(|i| {
        let v = Voltage {
            microvolts: volts[i],
        };
        !v.below_top()
    })
}

// Where there is no answer in range, that is the number.
impl From<NoneInRange> for Number {
    ghost from_gives = { λ _ number. number ≡ Rail };

    fn from(_none: NoneInRange) -> Number {
        Number::Rail
    }
}

// A sample whose drives are legal: its voltages are left in `at`, or it is refused with a number.
fn voiced(
    circuit: &Circuit,
    given: &[i64; 16],
    at: &mut Point,
    stored: &mut [i64; 32],
) -> Result<(), Number>
    requires { Playable circuit.now.board circuit.now.stretches stored.old × DrivesTested circuit.now.board given.now true × (length at.old.volts ≡ 16) }
    ensures { Voiced (network_on circuit.now.board circuit.now.stretches) (drives_at given.now) stored.old stored.new at.new.volts result }
{
    answer::solve(circuit, stored, given, at)?;
    if at_top(circuit, &at.volts) {
        return Err(Number::Rail);
    }
    match circuit.advance(&at.volts, stored) {
        Ok(()) => Ok(()),
        Err(_) => Err(Number::Stored),
    }
}

// The nodes of an accepted sample taken over.
fn hand_over(circuit: &Circuit, found: &[i64; 16], volts: &mut [i64; 16])
    requires { nodes_on circuit.now.board ≤ 15 }
    ensures { Taken found.now 0 (nodes_on circuit.now.board + 1) volts.old volts.new }
{
    places::take(found, 0, circuit.nodes() + 1, volts);
}

// The driven nodes stand at the sample's drives; the free nodes at any proposal. The search has a point of
// its own, so that a refusal leaves the voltages too.
pub fn sample(circuit: &Circuit, volts: &mut [i64; 16], stored: &mut [i64; 32]) -> Number
    requires { Playable circuit.now.board circuit.now.stretches stored.old }
    ensures { Leaves (network_on circuit.now.board circuit.now.stretches) stored.old stored.new volts.old volts.new result }
{
    if !drives_legal(circuit, volts) {
        return Number::Drive;
    }
    let mut at = Point {
        volts: [0i64; 16],
        nets: [0i64; 16],
    };
    match voiced(circuit, volts, &mut at, stored) {
        Ok(()) => {
            hand_over(circuit, &at.volts, volts);
            Number::Done
        }
        Err(number) => number,
    }
}
