// From a circuit's parts to the arrays that its samples are played from. It is done once for a circuit,
// so that a sample reads numbers and no bytes.
#![tactic(auto)]

mod numbers;
mod table;

pub use numbers::{circuit, fill};
pub use table::stretches;
