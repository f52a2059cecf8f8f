// The block: any image, stored currents, lengths and samples get an answer or document 01's number.
#![tactic(auto)]

mod call;
mod drives;
mod ending;
mod lengths;
mod play;
mod run;
mod state;

pub use call::{Played, State, block, krtovalin_block};
