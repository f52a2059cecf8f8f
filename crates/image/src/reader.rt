// The reader: five rules in the order of their numbers. Rule 6 is not a rule of reading: it is
// `conductances_fit`, over the parts.
ghost use Rattle.std.specs.Prelude.{◌≡◌};
ghost use Rattle.image.specs.Format.{length_fits, sizes_fit, parts_of, curve_bytes_fit};
ghost use Rattle.image.specs.Opened.{Read};
ghost use Rattle.image.specs.Asked.{Headed, Furnished, Whole};

use super::parts::Parts;
use super::{curve, element, limits, rules, trailer};
use units::number::Number;

fn length_fits(n: usize) -> bool
    ensures { result ≡ length_fits n }
{
    (limits::SHORTEST <= n) & (n <= limits::LONGEST)
}

// Whether the distances are right and the curves fill the bytes from the last element up to the trailer.
fn sizes_fit(image: &[u8], header: &Parts) -> bool
    requires { Headed image.now header.now }
    ensures { result ≡ sizes_fit image.now }
{
    let t = trailer::trailer_of(image);
    let before = image.len() - limits::TRAILER;
    let first = limits::ELEMENT * (header.element_count as usize);
    (t.element_distance == before)
        & (first + t.curve_distance == before)
        & curve::split(image, first, header.curve_count as usize, before)
}

// The parts, given what the trailer says of them.
fn filled(image: &[u8], header: Parts) -> Parts
    requires { Furnished image.now header }
    ensures { result ≡ parts_of image.now }
{
    let n = header.element_count as usize;
    Parts {
        elements: element::elements_at(image, n),
        curves: curve::curves_at(image, limits::ELEMENT * n, header.curve_count as usize),
        ..header
    }
}

// Whether the curves' padding, slopes and breakpoints are as they should be.
fn curve_bytes_fit(image: &[u8], parts: &Parts) -> bool
    requires { Whole image.now parts.now }
    ensures { result ≡ curve_bytes_fit image.now }
{
    let first = limits::ELEMENT * (parts.element_count as usize);
    let n = parts.curve_count as usize;
    curve::paddings_fit(image, first, n) & rules::curves_fit(parts)
}

// Reads any bytes whatever. The lowest number that applies refuses an image: one of 1 to 5, and never Done
// (`read_early`, `read_never_done`).
#[tactic(auto, unfolding(crate::specs::Format::opening_of))]
pub fn read(image: &[u8]) -> Result<Parts, Number>
    ensures { Read image.now result }
{
    if !length_fits(image.len()) {
        return Err(Number::Length);
    }
    let header = trailer::header_of(image);
    if !trailer::trailer_fits(image, &header) {
        return Err(Number::Trailer);
    }
    if !sizes_fit(image, &header) {
        return Err(Number::Sizes);
    }
    let parts = filled(image, header);
    if !curve_bytes_fit(image, &parts) {
        return Err(Number::Curve);
    }
    if !rules::elements_fit(&parts) {
        return Err(Number::Element);
    }
    Ok(parts)
}
