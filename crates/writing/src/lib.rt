// The writer: a circuit's parts to the bytes of their image, in a lent buffer, or what stands
// against it. Takes any parts and any buffer, and writes nothing beside a refusal.
#![tactic(auto)]

mod curve;
mod element;
mod trailer;
mod writer;

pub use writer::{Refusal, write, write_version};
