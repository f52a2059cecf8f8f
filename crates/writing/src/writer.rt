// The writer: the rules first, then the room, and only then a byte.
ghost use Rattle.std.specs.Prelude.{◌≡◌};
ghost use Rattle.image.specs.Parts.{version2, in_version};
ghost use Rattle.writing.specs.Writes.{refusal_number, Writes};

use super::{curve, element, trailer};
use image::Parts;
use units::number::Number;

// What stands against an image: the number of the rule that the parts break, or a buffer that is shorter
// than the image.
#[derive(Clone, Copy, PartialEq, Eq, Debug)]
pub enum Refusal {
    Rules(Number),
    Short,
}

impl Refusal {
    // Document 02's number for it.
    pub fn number(self) -> u64
        ensures { result ≡ refusal_number self }
    {
        match self {
            Refusal::Rules(number) => u64::from(number),
            Refusal::Short => 16,
        }
    }
}

// The image of parts in the version that they have.
fn write_parts(parts: Parts, buffer: &mut [u8]) -> Result<usize, Refusal>
    ensures { Writes parts buffer.old result buffer.new }
{
    match image::judge(parts) {
        Number::Done => {}
        broken => return Err(Refusal::Rules(broken)),
    }
    let first = image::ELEMENT * (parts.element_count as usize);
    let curves = curve::curves_length(parts);
    let before = first + curves;
    if buffer.len() < before + image::TRAILER {
        return Err(Refusal::Short);
    }
    element::put_elements(buffer, parts);
    curve::put_curves(buffer, first, parts);
    trailer::put_trailer(buffer, before, before, curves, parts);
    Ok(before + image::TRAILER)
}

// Writes the image of any parts whatever, in the version that is given, into a buffer of any length, and
// hands back how long it is.
// Bytes past the image keep their contents, and a refusal leaves all of them. The version that stands in
// the parts says what they were read from, and is not looked at.
pub fn write_version(version: u8, parts: Parts, buffer: &mut [u8]) -> Result<usize, Refusal>
    ensures { Writes (in_version version parts) buffer.old result buffer.new }
{
    write_parts(image::in_version(version, parts), buffer)
}

// Likewise, in version 2.
pub fn write(parts: Parts, buffer: &mut [u8]) -> Result<usize, Refusal>
    ensures { Writes (in_version version2 parts) buffer.old result buffer.new }
{
    write_version(image::VERSION_2, parts, buffer)
}
