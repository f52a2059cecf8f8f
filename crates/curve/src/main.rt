// Curves from the bench: the arguments name measured lists, texts of two whole numbers a line,
// microvolts and femtoamperes. Writes the slopes and the breakpoints of each, or `refused R`. No
// contract can say what is read or written, so this file is there to be read: what the lines are is
// promised by `answer::put`.
#![tactic(auto)]

mod answer;
mod kept;
mod line;
mod pairs;

use std::io;
use std::rt::Files;

// The curve of the list of this name.
fn report_on(rt: &(impl Files + Print), name: &[u8]) -> io::Result<()> {
    // longer than any text that is read
    let mut list = outside::large_buffer();
    let mut text = outside::buffer();
    let end = answer::put(&mut text, outside::read_into(rt, name, &mut list));
    rt.write_all(&text[..end])
}

fn main(rt: HostRuntime) -> io::Result<()> {
    outside::for_each_argument(&rt, |name| report_on(&rt, name))
}
