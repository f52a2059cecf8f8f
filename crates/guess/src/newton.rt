// Newton's way to voltages, in f64: the circuit is taken as straight lines where it stands, those
// are solved, and so on from there. The net currents that are to vanish are the exact ones, so that
// a round corrects whatever the rounds before it lost.
ghost use Rattle.std.specs.Prelude.{◌≡◌, ◌^◌, ◌<◌, ◌≤◌, length, unsigned_abs};
ghost use Rattle.units.specs.Voltage.{InRange};
ghost use Rattle.circuit.specs.Board.{nodes_on, Evaluable};
ghost use Rattle.guess.specs.Proposal.{Standing, Proposed};

use crate::matrix::{self, Singular, Vector};
use crate::memory::Memory;
use crate::rows::Rows;
use crate::{lines, places, ties, whole};
use circuit::Circuit;
use units::voltage::Voltage;

// How a guess ended. The first two carry the largest net current that remains at a free node, at the
// voltages that are proposed.
#[derive(Clone, Copy)]
pub enum Ending {
    Settled(f64),
    Spent(f64),
    Broken,
}

// How many rounds there are at most. Diodes in a row turn on one after the other, a round each.
const ROUNDS: u64 = 48;

fn larger(a: f64, b: f64) -> f64 {
    if a < b { b } else { a }
}

// Whether a round goes the whole way that its lines say.
fn goes_whole(round: u64) -> bool {
    round < 20
}

// Which part of a step is made in a round: where curves go back and forth between two lines, half steps
// and then quarter steps end it.
fn damping(round: u64) -> f64 {
    if goes_whole(round) {
        return 1.0;
    }
    if round < 34 { 0.5 } else { 0.25 }
}

// What enters the free nodes: their net currents with the other sign.
fn entering(circuit: &Circuit, stored: &[i64; 32], volts: &[i64; 16]) -> Vector
    requires { Evaluable circuit.now.board circuit.now.stretches stored.now volts.now }
{
    let exact = circuit.net_currents(stored, volts);
    let mut enters = [0.0f64; 15];
    for k in circuit.driven()..circuit.nodes() {
        enters[k] = -std::num::nearest_i64_to_f64(exact[k + 1]);
    }
    enters
}

// The largest of them, either way.
fn largest(enters: &Vector) -> f64 {
    enters
        .iter()
        .fold(0.0, |most, x| larger(most, whole::size(*x)))
}

// A step within the range, to one side or the other.
fn within(x: f64) -> f64 {
    if 33554431.0 < x {
        return 33554431.0;
    }
    if x < -33554431.0 {
        return -33554431.0;
    }
    x
}

// A whole step as an integer. It is raised above zero for the conversion: whether a node goes up or down is
// as good as random, and a jump by its sign is foreseen wrongly half of the time.
fn whole_step(step: f64) -> i64
    ensures { unsigned_abs result ≤ 2 ^ 28 }
{
    let above = step + 67108864.0;
    if above > -1.0 && above < 18446744073709551616.0 {
        let raised = std::num::truncating_f64_to_u64(above);
        if raised <= 134217728 {
            return raised as i64 - 67108864;
        }
    }
    0
}

// Where a node at v comes to if it goes as far as this, in whole microvolts and in range.
fn gone(v: i64, step: f64) -> i64
    requires { InRange v }
    ensures { InRange result }
{
    Voltage::clamped(v + whole_step(within(step)))
}

// The node of row k goes a part of the way that x says, and x is what is left of it. How far it went: most
// nodes go nowhere once they are solved.
fn go_at(circuit: &Circuit, part: f64, k: usize, x: &mut Vector, volts: &mut [i64; 16]) -> f64
    requires { (k < nodes_on circuit.now.board) × (nodes_on circuit.now.board ≤ 15) × Standing circuit.now.board volts.old }
    ensures { Standing circuit.now.board volts.new }
{
    let step = whole::nearest(part * x[k]);
    if step == 0.0 {
        return 0.0;
    }
    volts[k + 1] = gone(volts[k + 1], step);
    x[k] -= step;
    whole::size(step)
}

// .. and every free node. How far one went at the most.
fn go(circuit: &Circuit, part: f64, x: &mut Vector, volts: &mut [i64; 16]) -> f64
    requires { (nodes_on circuit.now.board ≤ 15) × Standing circuit.now.board volts.old }
    ensures { Standing circuit.now.board volts.new }
{
    let mut most: f64 = 0.0;
    for k in circuit.driven()..circuit.nodes() {
        most = larger(most, go_at(circuit, part, k, x, volts));
    }
    most
}

// How far the nodes have to go, by the lines where they stand.
fn solved(
    circuit: &Circuit,
    stored: &[i64; 32],
    volts: &[i64; 16],
    memory: &mut Memory,
) -> Result<Vector, Singular>
    requires { Evaluable circuit.now.board circuit.now.stretches stored.now volts.now }
{
    lines::refreshed(circuit, stored, volts, memory)?;
    let enters = entering(circuit, stored, volts);
    Ok(matrix::times(&memory.inverse, &enters, Rows::free(circuit)))
}

// Rounds until every curve holds, or no voltage changed, or there were enough of them. What comes back is
// how far the nodes still have to go, and whether every curve is on the line that was solved with, which
// makes the solution exact. Where only a part of the way was gone, curves that hold tell nothing.
fn rounds(
    circuit: &Circuit,
    stored: &[i64; 32],
    volts: &mut [i64; 16],
    memory: &mut Memory,
) -> Result<(Vector, bool), Singular>
    requires { Evaluable circuit.now.board circuit.now.stretches stored.now volts.old × Standing circuit.now.board volts.old }
    ensures { Standing circuit.now.board volts.new }
{
    let mut x = [0.0f64; 15];
    let mut most: f64 = 1.0;
    for round in 0..ROUNDS {
        x = solved(circuit, stored, volts, memory)?;
        if most < 0.5 {
            return Ok((x, false));
        }
        most = go(circuit, damping(round), &mut x, volts);
        if goes_whole(round) && lines::hold(circuit, volts, memory) {
            return Ok((x, true));
        }
    }
    Ok((x, false))
}

// The rest of the way in the whole microvolts that the ties find best. What remains then.
fn end(
    circuit: &Circuit,
    stored: &[i64; 32],
    x: Vector,
    memory: &mut Memory,
    volts: &mut [i64; 16],
) -> f64
    requires { Evaluable circuit.now.board circuit.now.stretches stored.now volts.old × Standing circuit.now.board volts.old }
    ensures { Standing circuit.now.board volts.new }
{
    let mut whole = ties::cut(memory, x, Rows::free(circuit));
    go(circuit, 1.0, &mut whole, volts);
    largest(&entering(circuit, stored, volts))
}

// The rounds and then whole microvolts.
fn search(
    circuit: &Circuit,
    stored: &[i64; 32],
    volts: &mut [i64; 16],
    memory: &mut Memory,
) -> Result<Ending, Singular>
    requires { Evaluable circuit.now.board circuit.now.stretches stored.now volts.old × Standing circuit.now.board volts.old }
    ensures { Standing circuit.now.board volts.new }
{
    let (x, held) = rounds(circuit, stored, volts, memory)?;
    let left = end(circuit, stored, x, memory, volts);
    Ok(if held {
        Ending::Settled(left)
    } else {
        Ending::Spent(left)
    })
}

// Rounded proposals for the free nodes in `guess`; those of `volts` if the search broke.
pub fn newton(
    circuit: &Circuit,
    stored: &[i64; 32],
    volts: &[i64; 16],
    memory: &mut Memory,
    guess: &mut [i64; 16],
) -> Ending
    requires { Evaluable circuit.now.board circuit.now.stretches stored.now volts.now × (length guess.old ≡ 16) }
    ensures { Proposed circuit.now.board guess.old guess.new }
{
    let mut at = circuit::places::copied(volts);
    match search(circuit, stored, &mut at, memory) {
        Ok(ending) => {
            places::place_free(circuit, &at, guess);
            ending
        }
        Err(Singular) => {
            places::place_free(circuit, volts, guess);
            Ending::Broken
        }
    }
}
