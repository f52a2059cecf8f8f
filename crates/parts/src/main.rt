// An image's parts as text: the arguments name images. Writes the netlist that is read back to the same
// parts in the version that its first line says; or `unnamed N`, where the image has N nodes and a netlist, whose node count is the highest node
// that it names, would have fewer; or `refused R`. No contract can say what is read or written, so this
// file is there to be read: what the lines are is promised by `beginning::put` and `curve::put`.
#![tactic(auto)]

mod answer;
mod beginning;
mod curve;
mod element;
mod nodes;

ghost use Rattle.parts.specs.Answer.{Ready};

use answer::Reason;
use image::Parts;
use std::io;
use std::rt::Files;

// The curves of a netlist, a line each.
fn write_curves(out: &impl Print, answer: &Result<Parts, Reason>) -> io::Result<()>
    requires { Ready answer.now }
{
    for curve in answer::curves(answer) {
        let mut text = outside::buffer();
        let end = curve::put(&mut text, *curve);
        out.write_all(&text[..end])?;
    }
    Ok(())
}

// The answer to the image of this name.
fn report_on(rt: &(impl Files + Print), name: &[u8]) -> io::Result<()> {
    // longer than any image that is accepted
    let mut image = outside::buffer();
    let answer = answer::to(outside::read_into(rt, name, &mut image));
    let mut text = outside::buffer();
    let end = beginning::put(&mut text, &answer);
    rt.write_all(&text[..end])?;
    write_curves(rt, &answer)
}

fn main(rt: HostRuntime) -> io::Result<()> {
    outside::for_each_argument(&rt, |name| report_on(&rt, name))
}
