// How far to trust a circuit's voltages: the arguments name images. A line for each free node has its
// number, held conductance, steepest sum and least B for e = 0; an image's last line has the greatest B.
//
// It holds for one sample, against any other solution with the same drives and the same stored currents
// before it: no free node is lower by B microvolts or more, and none is higher. Of a run, whose stored
// currents drift from another's, it says nothing, nor of a circuit that is not this network: one
// without the leak, with conductances between whole nanosiemens, or with curves that aren't straight.
#![tactic(auto)]

mod answer;

use std::io;
use std::rt::Files;

// The report on the image of this name.
fn report_on(rt: &(impl Files + Print), name: &[u8]) -> io::Result<()> {
    // longer than any image that is accepted
    let mut image = outside::buffer();
    let mut text = outside::buffer();
    let end = answer::put(&mut text, outside::read_into(rt, name, &mut image));
    rt.write_all(&text[..end])
}

fn main(rt: HostRuntime) -> io::Result<()> {
    outside::for_each_argument(&rt, |name| report_on(&rt, name))
}
