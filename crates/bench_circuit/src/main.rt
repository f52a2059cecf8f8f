// Runs the functions of `circuit` at the places where they could go wrong, and writes what comes of
// each: held conductances, steepest sums and bounds of a circuit, and for a sample every element's
// current, every node's net current, and the stored currents after it. The file `stdout` has what
// should come, from bench/circuit/model.py, which is written from documents 01 and 02 and not from this
// code.
#![tactic(auto)]

mod ask;
mod cases;
mod run;
mod show;
mod text;

use std::io;

fn main(rt: HostRuntime) -> io::Result<()> {
    cases::all(rt.stdout())
}
