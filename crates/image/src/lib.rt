// The image: bytes to a circuit's parts, or the number of the rule that they break. Reads any bytes
// whatever and writes nothing. A curve is read from the part of the lent image that it is.
#![tactic(auto)]

mod conductances;
mod curve;
mod element;
mod field;
mod limits;
mod parts;
mod reader;
mod rules;
mod trailer;
mod verdict;

pub use conductances::{conductance, conductances_fit, leak};
pub use curve::{breakpoint, breakpoint_count, curve_at, curve_length, slope};
pub use limits::{ELEMENT, TRAILER, VERSION_2};
pub use parts::{Curve, Element, Parts, in_version, no_curve, no_parts};
pub use reader::read;
pub use verdict::judge;
