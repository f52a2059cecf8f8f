// What an image comes to: the parts of a netlist, or a reason why there is none.
ghost use Rattle.std.specs.Prelude.{◌≡◌, length};
ghost use Rattle.image.specs.Format.{opening_of};
ghost use Rattle.image.specs.Sound.{Sound};
ghost use Rattle.parts.specs.Answer.{judged_outcome, Ready, Answers, curves_of, curves_after};

use super::nodes;
use image::{Curve, Parts};
use units::number::Number;

// The number that refuses the image, or a node count that no netlist has.
#[derive(Clone, Copy)]
pub enum Reason {
    Refused(Number),
    Unnamed(u64),
}

// Of an opened image. Rule 6 is asked here, since reading alone does not ask it.
fn judged(parts: Parts) -> Result<Parts, Reason>
    requires { Sound parts }
    ensures { result ≡ judged_outcome parts }
{
    if !image::conductances_fit(parts) {
        return Err(Reason::Refused(Number::Conductance));
    }
    if nodes::highest_named(parts) < parts.nodes {
        return Err(Reason::Unnamed(parts.nodes as u64));
    }
    Ok(parts)
}

// The answer to any bytes whatever.
pub fn to(image: &[u8]) -> Result<Parts, Reason>
    ensures { Answers (opening_of image.now) result }
{
    match image::read(image) {
        Ok(parts) => judged(parts),
        Err(number) => Err(Reason::Refused(number)),
    }
}

// The curves that are written after the beginning.
pub fn curves(answer: &Result<Parts, Reason>) -> &[Curve]
    ensures curves { result.now ≡ curves_of answer.now }
    ensures count { Ready answer.now → length result.now ≡ curves_after answer.now }
{
    match answer {
        Ok(parts) => parts
            .curves
            .get(..parts.curve_count as usize)
            .unwrap_or(&parts.curves),
        Err(_) => &[],
    }
}
