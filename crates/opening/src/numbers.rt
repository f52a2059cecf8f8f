// The board: a circuit's numbers, and what is computed from them: the index and the steepest sums.
ghost use Rattle.std.specs.Prelude.{◌≡◌, true, pos, [], ◌∷◌, ◌+◌, ◌*◌, ◌≤◌, ◌<◌, replicate};
ghost use Rattle.units.specs.Table.{overlaid, padded};
ghost use Rattle.image.specs.Conductance.{conductances_fit};
ghost use Rattle.image.specs.Setting.{plain};
ghost use Rattle.image.specs.Sound.{Sound};
ghost use Rattle.stretch.specs.Stretch.{stretches_size};
ghost use Rattle.circuit.specs.Board.{board_size};
ghost use Rattle.opening.specs.Opening.{laid_number, laid_of, board_of, stretches_of};

use super::table;
use circuit::Circuit;
use image::{Element, Parts};
use network::kind;

// The numbers of an element from place `at` on: g is its conductance, and a curve of m breakpoints has
// its stretches from row `first` on.
fn put(board: &mut [u64; 293], at: usize, e: Element, g: u64, first: u64, m: u64)
    requires { at + 6 ≤ board_size }
    ensures { board.new ≡ overlaid board.old at (e.kind ∷ e.p ∷ e.q ∷ g ∷ first ∷ m ∷ []) }
{
    board[at] = e.kind as u64;
    board[at + 1] = e.p as u64;
    board[at + 2] = e.q as u64;
    board[at + 3] = g;
    board[at + 4] = first;
    board[at + 5] = m;
}

// Element j on a board that has what comes before it.
fn lay(board: &mut [u64; 293], parts: &Parts, j: usize)
    requires { Sound parts.now × (j < parts.now.element_count) × (board.old ≡ padded 0 board_size (laid_number parts.now plain) (101 + 6 * j)) }
    ensures { board.new ≡ padded 0 board_size (laid_number parts.now plain) (101 + 6 * (j + 1)) }
{
    let e = parts.elements[j];
    let at = 101 + 6 * j;
    let g = image::conductance(e.kind, e.value, parts.rate);
    if kind::has_curve(e.kind as u64) {
        let k = e.curve as usize;
        let c = parts.curves[k];
        put(board, at, e, g, 17 * (k as u64), c.count as u64);
    } else {
        put(board, at, e, g, 0, 0);
    }
}

// The leak, the counts and the elements, on a board of zeros; nothing that is computed from them yet.
fn lay_all(board: &mut [u64; 293], parts: &Parts)
    requires { Sound parts.now × (board.old ≡ replicate board_size 0) }
    ensures { board.new ≡ laid_of parts.now plain }
{
    board[0] = image::leak(parts.version);
    board[1] = parts.nodes as u64;
    board[2] = parts.driven as u64;
    board[3] = parts.element_count as u64;
    for j in 0..parts.element_count as usize {
        lay(board, parts, j);
    }
}

// Makes a circuit of zeros that of parts whose conductances are within their limits, where it stands. One that is
// handed up stands twice on the stack, of which a host has little.
pub fn fill(parts: Parts, circuit: &mut Circuit)
    requires fit { Sound parts × (conductances_fit parts plain ≡ true) }
    requires board { circuit.old.board ≡ replicate board_size 0 }
    requires stretches { circuit.old.stretches ≡ replicate stretches_size (pos 0) }
    ensures board { circuit.new.board ≡ board_of parts plain }
    ensures stretches { circuit.new.stretches ≡ stretches_of parts }
{
    lay_all(&mut circuit.board, &parts);
    table::stretches(parts, &mut circuit.stretches);
    circuit.fill_index();
    for i in 0..16 {
        let sum = circuit.steepest(i);
        circuit.board[4 + i] = sum;
    }
}

// The circuit of such parts.
pub fn circuit(parts: Parts) -> Circuit
    requires { Sound parts × (conductances_fit parts plain ≡ true) }
    ensures board { result.board ≡ board_of parts plain }
    ensures stretches { result.stretches ≡ stretches_of parts }
{
    let mut circuit = Circuit {
        board: [0; 293],
        stretches: [0; 408],
    };
    fill(parts, &mut circuit);
    circuit
}
