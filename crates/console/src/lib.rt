// What the programs share: numbers and words as text, written and read.
#![tactic(auto)]

pub mod number;
pub mod text;
pub mod words;
