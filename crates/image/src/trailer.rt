// The trailer: the last 16 bytes of the image, which point back and say how many there are of what.
ghost use Rattle.std.specs.Prelude.{◌≡◌, ◌≤◌, ◌<◌, length};
ghost use Rattle.image.specs.Format.{trailer_size, trailer_of, header_of, trailer_fits};

use super::parts::Parts;
use super::{field, limits, parts, rules};
use units::bytes;

// The layout's own fields.
#[derive(Clone, Copy)]
pub struct Trailer {
    // From the trailer's first byte back to the first element, and to the first curve byte.
    pub element_distance: usize,
    pub curve_distance: usize,
    pub size: usize,
}

// The trailer of an image.
pub fn trailer_of(image: &[u8]) -> Trailer
    requires { trailer_size ≤ length image.now }
    ensures { (result ≡ trailer_of image.now) × (result.curve_distance < 65536) }
{
    let at = image.len() - limits::TRAILER;
    Trailer {
        element_distance: field::short(image, at),
        curve_distance: field::short(image, at + 2),
        size: field::short(image, at + 14),
    }
}

// What it says of the parts: all but the elements and the curves.
pub fn header_of(image: &[u8]) -> Parts
    requires { trailer_size ≤ length image.now }
    ensures { result ≡ header_of image.now }
{
    let at = image.len() - limits::TRAILER;
    Parts {
        version: image[at + 13],
        nodes: image[at + 6],
        driven: image[at + 7],
        output: image[at + 12],
        rate: bytes::unsigned_at::<4>(image, at + 8) as u32,
        element_count: image[at + 4],
        curve_count: image[at + 5],
        ..parts::no_parts()
    }
}

// Whether every field but the distances is in its range.
pub fn trailer_fits(image: &[u8], header: &Parts) -> bool
    requires { (trailer_size ≤ length image.now) × (header.now ≡ header_of image.now) }
    ensures { result ≡ trailer_fits image.now }
{
    rules::header_fits(header) & (trailer_of(image).size == limits::TRAILER)
}
