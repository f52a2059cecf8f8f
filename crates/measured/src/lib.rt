// Curves from the bench: measured pairs of voltage and current to the slopes and breakpoints of an
// image's curve, or the number of what stands against it.
#![tactic(auto)]

mod drawing;
mod pairs;

pub use drawing::{Refusal, curve, number};
pub use pairs::MOST;
