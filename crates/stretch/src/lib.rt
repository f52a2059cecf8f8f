// Curves as straight stretches: the table that they stand in, a curve put into it, and from it the stretch
// that a voltage lies in, currents, and the steepest slope. It knows no board, and reads no bytes.
#![tactic(auto)]

pub mod curve;
pub mod drawing;
pub mod stretches;
