// The code of network's definitions over a circuit: currents, net current, held conductance, steepest
// sum, net currents kept while nodes move, the advance of stored currents, and the least bound B. It reads
// numbers and no bytes.
#![tactic(auto)]

pub mod advance;
mod board;
mod bound;
pub mod branch;
mod index;
mod nets;
mod node;
pub mod places;
mod shift;

// A circuit as its samples are played from it: the board of its numbers, and the table of its curves'
// stretches. `specs/Board.antt` says when the two mean a network.
#[derive(Clone, Copy)]
pub struct Circuit {
    pub board: [u64; 293],
    pub stretches: [i64; 408],
}
