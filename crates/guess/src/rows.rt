// Rows of a matrix over the nodes: row k is node k + 1's.
ghost use Rattle.std.specs.Prelude.{◌<◌, ◌≤◌};
ghost use Rattle.circuit.specs.Board.{nodes_on};

use circuit::Circuit;

// The free nodes' rows, from `first` up to `end`.
#[derive(Clone, Copy)]
pub struct Rows {
    pub first: usize,
    pub end: usize,
    pub ghost few: { end ≤ 15 },
}

impl Rows {
    pub fn free(circuit: &Circuit) -> Rows
        requires { nodes_on circuit.now.board ≤ 15 }
    {
        Rows {
            first: circuit.driven(),
            end: circuit.nodes(),
        }
    }
}

// A row, whatever the number.
pub fn row(k: usize) -> usize
    ensures { result < 15 }
{
    if k < 15 { k } else { 0 }
}
