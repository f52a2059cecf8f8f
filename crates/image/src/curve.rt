// A curve of the image: its own bytes as they lie there, and what is read from them.
ghost use Rattle.std.specs.Prelude.{◌≡◌, ℕ, suc, ◌+◌, ◌*◌, ◌≤◌, ◌<◌, pos, length, get_or};
ghost use Rattle.units.specs.Table.{padded, every};
ghost use Rattle.network.specs.Network.{breakpoint_count_limit};
ghost use Rattle.image.specs.Parts.{curve_limit, no_curve};
ghost use Rattle.image.specs.Curve.{curve_bytes, curve_length, slope_of, breakpoint_of, curve_in, start_from, splits, padding_fits};
ghost use Rattle.image.specs.Asked.{CurveThere};

use super::parts::Curve;
use super::{field, parts, rules};
use std::array;
use units::bytes;

// How many bytes a curve of m breakpoints has.
pub fn curve_length(m: usize) -> usize
    requires { m < 256 }
    ensures { result ≡ curve_length m }
{
    8 + 8 * m
}

// The bytes of the curve that starts at a place of the image, as they lie there: a part of the image,
// cut short where the image ends.
pub fn curve_at<'a>(image: &'a [u8], at: usize) -> &'a [u8]
    ensures { result.now ≡ curve_bytes image.now at }
{
    let end = image.len();
    if end <= at {
        return &image[end..end];
    }
    let n = curve_length(field::byte(image, at));
    if end - at <= n {
        return &image[at..end];
    }
    &image[at..at + n]
}

// How many breakpoints a curve has; it has one slope more.
pub fn breakpoint_count(bytes: &[u8]) -> usize
    requires { 1 ≤ length bytes.now }
    ensures { (result ≡ get_or bytes.now 0 0) × (result < 256) }
{
    field::byte(bytes, 0)
}

pub fn slope(bytes: &[u8], j: usize) -> u32
    requires { 8 + 4 * j ≤ length bytes.now }
    ensures { result ≡ slope_of bytes.now j }
{
    bytes::unsigned_at::<4>(bytes, 4 + 4 * j) as u32
}

pub fn breakpoint(bytes: &[u8], j: usize) -> i32
    requires { 12 + 4 * get_or bytes.now 0 0 + 4 * j ≤ length bytes.now }
    ensures { result ≡ breakpoint_of bytes.now j }
{
    bytes::signed_at::<4>(bytes, 8 + 4 * breakpoint_count(bytes) + 4 * j) as i32
}

// The curve of those bytes.
fn curve_in(bytes: &[u8]) -> Curve
    requires { (get_or bytes.now 0 0 ≤ breakpoint_count_limit) × (length bytes.now ≡ curve_length (get_or bytes.now 0 0)) }
    ensures { result ≡ curve_in bytes.now }
{
    let m = breakpoint_count(bytes);
    Curve {
        count: bytes[0],
        slopes: array::from_fn(|j| if j < m + 1 { slope(bytes, j) } else { 0 }),
        breakpoints: array::from_fn(|j| if j < m { breakpoint(bytes, j) } else { 0 }),
    }
}

// Whether `count` curves from `first` on have sizes in range and end at `end`.
pub fn split(image: &[u8], first: usize, count: usize, end: usize) -> bool
    ensures { result ≡ splits image.now first count end }
{
    let mut at = first;
    for _ in 0..count {
        let Some(m) = image.get(at) else {
            return false;
        };
        let m = *m as usize;
        if !rules::curve_size_fits(m) {
            return false;
        }
        at += curve_length(m);
    }
    at == end
}

// Those curves.
pub fn curves_at(image: &[u8], first: usize, count: usize) -> [Curve; 8]
    requires { (count ≤ curve_limit) × ((k : ℕ) → k < count → CurveThere image.now (start_from image.now first k)) }
    ensures { result ≡ padded no_curve curve_limit (λ (k : ℕ). curve_in (curve_bytes image.now (start_from image.now first k))) count }
{
    let none = parts::no_curve();
    let mut curves = [none; 8];
    let mut at = first;
    for k in 0..count {
        let bytes = curve_at(image, at);
        curves[k] = curve_in(bytes);
        at += bytes.len();
    }
    curves
}

// Whether a curve's padding is zero.
fn padding_fits(bytes: &[u8]) -> bool
    requires { 4 ≤ length bytes.now }
    ensures { result ≡ padding_fits bytes.now }
{
    (bytes[1] == 0) & (bytes[2] == 0) & (bytes[3] == 0)
}

// Whether that of each of those curves is.
pub fn paddings_fit(image: &[u8], first: usize, count: usize) -> bool
    requires { (k : ℕ) → k < count → CurveThere image.now (start_from image.now first k) }
    ensures { result ≡ every (λ (k : ℕ). padding_fits (curve_bytes image.now (start_from image.now first k))) count }
{
    let mut at = first;
    for _ in 0..count {
        let bytes = curve_at(image, at);
        if !padding_fits(bytes) {
            return false;
        }
        at += bytes.len();
    }
    true
}
