// Images to read: good ones, and ways to make another of one.
ghost use Rattle.std.specs.Prelude.{◌<◌};

use std::num::wrapping_add_usize as plus;

// The first n of the bytes.
#[derive(Clone, Copy)]
pub struct Image {
    pub bytes: [u8; 1400],
    pub n: usize,
}

// n zeros.
fn blank(n: usize) -> Image {
    Image {
        bytes: [0; 1400],
        n,
    }
}

// The same bytes to another length.
pub fn cut(i: Image, n: usize) -> Image {
    let bytes = i.bytes;
    Image { bytes, n }
}

// With another byte at a place.
pub fn byte(i: Image, at: usize, v: u8) -> Image {
    let mut bytes = i.bytes;
    if at < 1400 {
        bytes[at] = v;
    }
    Image { bytes, n: i.n }
}

pub fn low(v: u64) -> u8 {
    (v % 256) as u8
}

// With four other bytes from a place on, the lowest of v first.
pub fn word(i: Image, at: usize, v: u64) -> Image {
    let a = byte(i, at, low(v));
    let b = byte(a, plus(at, 1), low(v / 256));
    let c = byte(b, plus(at, 2), low(v / 65536));
    byte(c, plus(at, 3), low(v / 16777216))
}

// With the bytes of s from a place on.
pub fn put(i: Image, at: usize, s: &[u8]) -> Image {
    let mut bytes = i.bytes;
    for k in 0..s.len() {
        let to = plus(at, k);
        if to < 1400 {
            bytes[to] = s[k];
        }
    }
    Image { bytes, n: i.n }
}

// Document 01's example: 1000 ohm from 1 to 2 and from 2 to ground.
pub fn example() -> Image {
    let s = [
        0x01, 0x01, 0x02, 0x00, 0xE8, 0x03, 0x00, 0x00, 0x01, 0x02, 0x00, 0x00, 0xE8, 0x03, 0x00,
        0x00, 0x10, 0x00, 0x00, 0x00, 0x02, 0x00, 0x02, 0x01, 0x80, 0xBB, 0x00, 0x00, 0x02, 0x01,
        0x10, 0x00,
    ];
    put(blank(32), 0, &s)
}

// 1000 ohm from the only node to ground, at the lowest rate: the shortest image.
pub fn smallest() -> Image {
    let s = [
        1, 1, 0, 0, 232, 3, 0, 0, 8, 0, 0, 0, 1, 0, 1, 0, 64, 31, 0, 0, 1, 1, 16, 0,
    ];
    put(blank(24), 0, &s)
}

// An element of each kind and two curves, of one breakpoint and of two: 1000 ohm from 1 to 2, 10,000
// pF from 2 to ground, 1,000 uH from 2 to 3, and a diode from 3 to ground by the second curve.
pub fn mixed() -> Image {
    mixed_to(72)
}

// The same with its trailer at another place than 72, and distances to fit.
pub fn mixed_to(end: usize) -> Image
    requires lt_end { 32 < end }
    requires end_bound { end < 100 }
{
    let elements = [
        1, 1, 2, 0, 232, 3, 0, 0, 2, 2, 0, 0, 16, 39, 0, 0, 3, 2, 3, 0, 232, 3, 0, 0, 4, 3, 0, 1,
        0, 0, 0, 0,
    ];
    let curves = [
        1, 0, 0, 0, 0, 0, 0, 0, 128, 150, 152, 0, 192, 39, 9, 0, 2, 0, 0, 0, 5, 0, 0, 0, 0, 0, 0,
        0, 0, 0, 0, 64, 0, 0, 0, 252, 0, 0, 0, 4,
    ];
    let trailer = [0, 0, 0, 0, 4, 2, 3, 1, 128, 187, 0, 0, 3, 1, 16, 0];
    let i = put(put(blank(end + 16), 0, &elements), 32, &curves);
    word(
        put(i, end, &trailer),
        end,
        (end + 65536 * (end - 32)) as u64,
    )
}

// One resistor, and one curve that says that it has m breakpoints and is zero otherwise.
pub fn bare(m: usize) -> Image
    requires { m < 100 }
{
    let element = [1, 1, 0, 0, 232, 3, 0, 0];
    let trailer = [0, 0, 0, 0, 1, 1, 1, 0, 128, 187, 0, 0, 1, 1, 16, 0];
    let end = 16 + 8 * m;
    let i = byte(put(blank(end + 16), 0, &element), 8, m as u8);
    word(put(i, end, &trailer), end, (end + 65536 * (end - 8)) as u64)
}

// Element j of the largest image: resistors, and then a diode for each curve.
fn large_element(i: Image, j: usize) -> Image
    requires { j < 32 }
{
    let p = (j % 15 + 1) as u8;
    let at = 8 * j;
    if j < 24 {
        return word(put(i, at, &[1, p, 0, 0]), at + 4, (1000 + j) as u64);
    }
    put(i, at, &[4, 0, p, (j - 24) as u8])
}

// Slope j of curve k of the largest image, and breakpoint j, from -8,000 on.
fn large_stretch(i: Image, k: usize, j: usize) -> Image
    requires k_bound { k < 8 }
    requires j_bound { j < 16 }
{
    let at = 256 + 136 * k + 4 * j;
    let slopes = word(i, at + 4, (1000 * k + j) as u64);
    word(
        slopes,
        at + 72,
        (4294959296 + (1000 * j + k) as u64) % 4294967296,
    )
}

// Curve k of the largest image, of sixteen breakpoints.
fn large_curve(i: Image, k: usize) -> Image
    requires { k < 8 }
{
    let mut c = word(byte(i, 256 + 136 * k, 16), 256 + 136 * k + 68, 1073741824);
    for j in 0..16usize {
        c = large_stretch(c, k, j);
    }
    c
}

// Fifteen nodes, 32 elements, eight curves of sixteen breakpoints, the highest rate: the longest
// image.
pub fn largest() -> Image {
    let trailer = [64, 5, 64, 4, 32, 8, 15, 3, 0, 238, 2, 0, 15, 1, 16, 0];
    let mut i = put(blank(1360), 1344, &trailer);
    for j in 0..32usize {
        i = large_element(i, j);
    }
    for k in 0..8usize {
        i = large_curve(i, k);
    }
    i
}
