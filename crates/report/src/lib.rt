// What the programs write of a circuit, as text in a lent buffer: its parts, its nodes, and a curve;
// and what such lines are made of.
#![tactic(auto)]

mod curve;
mod fields;
mod nodes;
mod parts;

pub use curve::{put_curve, put_spaced};
pub use fields::{put_column, put_last, put_named};
pub use nodes::put_bounds;
pub use parts::{letter, put_parts};
