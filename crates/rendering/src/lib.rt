// Rendering, on slices: drives that were read become lines of text in a lent buffer, a block at a time.
#![tactic(auto)]

mod ending;
mod lines;
mod turn;

pub use ending::put_ending;
pub use lines::put_lines;
pub use turn::{Turn, drive_bytes, is_whole, play};
