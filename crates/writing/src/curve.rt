// The curves as they lie in the image: m, three bytes of padding, m + 1 slopes, m breakpoints.
ghost use Rattle.std.specs.Prelude.{◌≡◌, ◌+◌, ◌*◌, ◌≤◌, length};
ghost use Rattle.units.specs.Table.{overlaid, in_turn};
ghost use Rattle.network.specs.Network.{breakpoint_count_limit};
ghost use Rattle.image.specs.Curve.{curve_length};
ghost use Rattle.writing.specs.Image.{slope_bytes, curve_bytes, curves_bytes};
ghost use Rattle.writing.specs.Asked.{CurvesFew};

use image::{Curve, Parts};
use units::bytes;

// Slopes, or the bits of breakpoints: numbers of four bytes each, one after the other.
fn put_all(buffer: &mut [u8], at: usize, numbers: &[u32])
    requires { at + 4 * length numbers.now ≤ length buffer.old }
    ensures { buffer.new ≡ overlaid buffer.old at (in_turn (slope_bytes numbers.now) (length numbers.now)) }
{
    for (j, number) in numbers.iter().enumerate() {
        bytes::put_unsigned::<4>(buffer, at + 4 * j, *number as u64);
    }
}

// How many bytes a curve has.
fn curve_length(c: &Curve) -> usize
    ensures { (result ≡ length (curve_bytes c.now)) × (result ≡ curve_length c.now.count) }
{
    image::curve_length(c.count as usize)
}

fn put_curve(buffer: &mut [u8], at: usize, c: &Curve)
    requires { (c.now.count ≤ breakpoint_count_limit) × (at + curve_length c.now.count ≤ length buffer.old) }
    ensures { buffer.new ≡ overlaid buffer.old at (curve_bytes c.now) }
{
    let m = c.count as usize;
    buffer[at] = c.count;
    buffer[at + 1] = 0;
    buffer[at + 2] = 0;
    buffer[at + 3] = 0;
    put_all(buffer, at + 4, &c.slopes[..=m]);
    let breakpoints = c.breakpoints.map(i32::cast_unsigned);
    put_all(buffer, at + 8 + 4 * m, &breakpoints[..m]);
}

// How many bytes all curves have.
pub fn curves_length(parts: Parts) -> usize
    requires { CurvesFew parts }
    ensures { (result ≡ length (curves_bytes parts)) × (result ≤ 1088) }
{
    let mut total: usize = 0;
    for c in &parts.curves[..parts.curve_count as usize] {
        total += curve_length(c);
    }
    total
}

// All curves, from a place on.
pub fn put_curves(buffer: &mut [u8], at: usize, parts: Parts)
    requires { CurvesFew parts × (at + length (curves_bytes parts) ≤ length buffer.old) }
    ensures { buffer.new ≡ overlaid buffer.old at (curves_bytes parts) }
{
    let curves = &parts.curves[..parts.curve_count as usize];
    let mut end = at;
    for c in curves {
        put_curve(buffer, end, c);
        end += curve_length(c);
    }
}
