// Reads images at the places where the reader could go wrong, and writes what comes of each: the
// number, or for some the whole circuit. The file `stdout` has what should come, from
// bench/image/model.py, which is written from documents 01 and 02 and not from this code.
//
// An image stands in a struct by value, so that another is made from a good one by a call.
#![tactic(auto)]

mod build;
mod cases;
mod damage;
mod show;

use build::{byte, cut, example, largest, mixed, mixed_to, smallest};
use show::{circuit, cuts, plain};
use std::io;
use std::io::Stdout;

// Document 01's example, a circuit of each kind of element, the shortest and the longest image, the
// example in version 2, and what stands beside a refusal.
fn good(out: Stdout) -> io::Result<()> {
    circuit(out, "example", example())?;
    circuit(out, "mixed", mixed())?;
    circuit(out, "smallest", smallest())?;
    circuit(out, "largest", largest())?;
    circuit(out, "version 2", byte(example(), 29, 2))?;
    circuit(out, "refused", byte(example(), 20, 0))
}

// The numbers for each length that an image can be cut to, and one byte too many.
fn lengths(out: Stdout) -> io::Result<()> {
    cuts(out, "example cut to 0, 1, ..:", example(), 32)?;
    cuts(out, "mixed cut to 0, 1, ..:", mixed(), 88)?;
    plain(out, "largest and a byte more:", cut(largest(), 1361))
}

// Curve bytes that are too few or too many for the curves in them, and curves of every size.
fn splits(out: Stdout) -> io::Result<()> {
    plain(out, "curve bytes one short:", mixed_to(71))?;
    plain(out, "curve bytes one long:", mixed_to(73))?;
    plain(out, "curve bytes eight long:", mixed_to(80))?;
    show::bares(out, "one curve of m 0, 1, .., 18, all else in it zero:")
}

// Pseudo-random damage, and noise.
fn damages(out: Stdout) -> io::Result<()> {
    damage::tries(out, "damaged examples:", example(), false, 1000)?;
    damage::tries(out, "damaged mixed:", mixed(), false, 2000)?;
    damage::tries(out, "damaged largest:", largest(), false, 100)?;
    damage::tries(out, "noise:", example(), true, 1000)
}

fn main(rt: HostRuntime) -> io::Result<()> {
    let out = rt.stdout();
    good(out)?;
    lengths(out)?;
    splits(out)?;
    cases::run(out)?;
    damages(out)
}
