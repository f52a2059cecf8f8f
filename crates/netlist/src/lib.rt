// Netlists: text from the schematic tool to a circuit's parts, or a numbered refusal with its line.
// Reads any bytes whatever and writes nothing. The grammar is in specs/, apart from these readers.
#![tactic(auto)]

mod curve;
mod draft;
mod field;
mod line;
mod reader;
mod said;
mod store;

pub use field::{byte, narrow};
pub use reader::{Refusal, read};
