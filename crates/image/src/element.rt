// The elements as they lie in the image, eight bytes each.
ghost use Rattle.std.specs.Prelude.{◌≡◌, ◌+◌, ◌*◌, ◌≤◌, length};
ghost use Rattle.units.specs.Table.{padded};
ghost use Rattle.network.specs.Network.{branch_limit};
ghost use Rattle.image.specs.Parts.{no_element};
ghost use Rattle.image.specs.Format.{element_size, element_at};

use super::parts::Element;
use super::{limits, parts};
use std::array;
use units::bytes;

fn element_at(image: &[u8], j: usize) -> Element
    requires { element_size * j + element_size ≤ length image.now }
    ensures { result ≡ element_at image.now j }
{
    let at = limits::ELEMENT * j;
    Element {
        kind: image[at],
        p: image[at + 1],
        q: image[at + 2],
        curve: image[at + 3],
        value: bytes::unsigned_at::<4>(image, at + 4) as u32,
    }
}

// The first n elements.
pub fn elements_at(image: &[u8], n: usize) -> [Element; 32]
    requires { (n ≤ branch_limit) × (element_size * n ≤ length image.now) }
    ensures { result ≡ padded no_element branch_limit (element_at image.now) n }
{
    array::from_fn(|j| if j < n {
        element_at(image, j)
    } else {
        parts::no_element()
    })
}
