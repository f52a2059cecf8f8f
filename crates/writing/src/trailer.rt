// The trailer: the last 16 bytes of the image, which point back and say how many there are of what.
ghost use Rattle.std.specs.Prelude.{◌≡◌, ◌+◌, ◌≤◌, length};
ghost use Rattle.units.specs.Table.{overlaid};
ghost use Rattle.image.specs.Format.{trailer_size};
ghost use Rattle.writing.specs.Image.{trailer_bytes};

use image::Parts;
use units::bytes;

// The trailer at a place, with its distances back to the first element and to the first curve.
pub fn put_trailer(buffer: &mut [u8], at: usize, elements: usize, curves: usize, parts: Parts)
    requires { at + trailer_size ≤ length buffer.old }
    ensures { buffer.new ≡ overlaid buffer.old at (trailer_bytes elements curves parts) }
{
    bytes::put_unsigned::<2>(buffer, at, elements as u64);
    bytes::put_unsigned::<2>(buffer, at + 2, curves as u64);
    buffer[at + 4] = parts.element_count;
    buffer[at + 5] = parts.curve_count;
    buffer[at + 6] = parts.nodes;
    buffer[at + 7] = parts.driven;
    bytes::put_unsigned::<4>(buffer, at + 8, parts.rate as u64);
    buffer[at + 12] = parts.output;
    buffer[at + 13] = parts.version;
    bytes::put_unsigned::<2>(buffer, at + 14, image::TRAILER as u64);
}
