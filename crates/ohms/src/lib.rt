// A resistor's value as a designer writes it: numbers of ohms, in series with `+` and in parallel with
// `||`, which binds tighter, and brackets. Reads any bytes whatever and writes nothing.
#![tactic(auto)]

mod reader;
mod stages;

pub use reader::{Found, value};
pub use stages::stage;
