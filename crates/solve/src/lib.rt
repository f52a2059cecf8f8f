// The exact search: the highest voltages of a sample, or that there are none. It keeps the net current
// of every node beside the voltages.
#![tactic(auto)]

mod answer;
mod certify;
mod climb;
mod leap;
mod plunge;
mod point;
pub mod sample;
mod settle;
