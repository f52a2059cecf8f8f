// The elements as they lie in the image, eight bytes each.
ghost use Rattle.std.specs.Prelude.{◌≡◌, ◌+◌, ◌*◌, ◌≤◌, length};
ghost use Rattle.units.specs.Table.{overlaid};
ghost use Rattle.network.specs.Network.{branch_limit};
ghost use Rattle.image.specs.Format.{element_size};
ghost use Rattle.writing.specs.Image.{element_bytes, elements_bytes};

use image::{Element, Parts};
use units::bytes;

fn put_element(buffer: &mut [u8], at: usize, e: &Element)
    requires { at + element_size ≤ length buffer.old }
    ensures { buffer.new ≡ overlaid buffer.old at (element_bytes e.now) }
{
    buffer[at] = e.kind;
    buffer[at + 1] = e.p;
    buffer[at + 2] = e.q;
    buffer[at + 3] = e.curve;
    bytes::put_unsigned::<4>(buffer, at + 4, e.value as u64);
}

// All of them, from the first byte on.
pub fn put_elements(buffer: &mut [u8], parts: Parts)
    requires { (parts.element_count ≤ branch_limit) × (element_size * parts.element_count ≤ length buffer.old) }
    ensures { buffer.new ≡ overlaid buffer.old 0 (elements_bytes parts) }
{
    for (j, e) in parts.elements[..parts.element_count as usize]
        .iter()
        .enumerate()
    {
        put_element(buffer, image::ELEMENT * j, e);
    }
}
