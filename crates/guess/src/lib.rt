// The fast guess: voltages from which the exact search may begin, found by Newton's way in f64. A range
// and an ending are all that it promises; no answer depends on it, so nothing else is stated or proved
// of its numbers.
#![tactic(auto)]

mod choice;
mod lines;
mod links;
mod matrix;
mod memory;
mod newton;
mod places;
mod proposal;
mod rows;
mod sets;
mod slide;
mod tangent;
mod ties;
mod way;
mod whole;

pub use choice::Price;
pub use memory::Memory;
pub use newton::Ending;
pub use proposal::propose;
pub use tangent::Tangent;
pub use way::Step;
