// A raw record: how long a buffer is to be, the version that the writer is given, if any, and a
// circuit's parts, which may be any whatever. All fields of the parts are there, past the counts too, and
// their own version; bench/README.md has their order.
ghost use Rattle.std.specs.Prelude.{◌+◌, ◌≤◌, ◌<◌, length};

use image::{Curve, Element, Parts};
use std::array;
use units::bytes;

// Bytes of a record.
pub const SIZE: usize = 1334;

// No buffer is as long as this.
pub const LONG: usize = 2048;

// Where the elements begin, and the curves.
const ELEMENTS: usize = 14;

const CURVES: usize = 270;

// Bytes of a curve, and where in it the breakpoints begin.
const CURVE: usize = 133;

const BREAKPOINTS: usize = 69;

fn element(raw: &[u8], at: usize) -> Element
    requires { at + 8 ≤ length raw.now }
{
    Element {
        kind: raw[at],
        p: raw[at + 1],
        q: raw[at + 2],
        curve: raw[at + 3],
        value: bytes::unsigned_at::<4>(raw, at + 4) as u32,
    }
}

fn elements(raw: &[u8]) -> [Element; 32]
    requires { 1334 ≤ length raw.now }
{
    array::from_fn(|j| element(raw, ELEMENTS + 8 * j))
}

fn slopes(raw: &[u8], at: usize) -> [u32; 17]
    requires { at + 68 ≤ length raw.now }
{
    array::from_fn(|j| bytes::unsigned_at::<4>(raw, at + 4 * j) as u32)
}

fn breakpoints(raw: &[u8], at: usize) -> [i32; 16]
    requires { at + 64 ≤ length raw.now }
{
    array::from_fn(|j| bytes::signed_at::<4>(raw, at + 4 * j) as i32)
}

fn curve(raw: &[u8], at: usize) -> Curve
    requires { at + 133 ≤ length raw.now }
{
    Curve {
        count: raw[at],
        slopes: slopes(raw, at + 1),
        breakpoints: breakpoints(raw, at + BREAKPOINTS),
    }
}

fn curves(raw: &[u8]) -> [Curve; 8]
    requires { 1334 ≤ length raw.now }
{
    array::from_fn(|k| curve(raw, CURVES + CURVE * k))
}

// How long the buffer is to be.
pub fn room(raw: &[u8]) -> usize
    requires { 1334 ≤ length raw.now }
    ensures { result < 2048 }
{
    bytes::unsigned_at::<2>(raw, 0) as usize % LONG
}

// The version that the writer is given, if it is given one.
pub fn version(raw: &[u8]) -> Option<u8>
    requires { 1334 ≤ length raw.now }
{
    if raw[2] == 0 {
        return None;
    }
    Some(raw[3])
}

pub fn parts(raw: &[u8]) -> Parts
    requires { 1334 ≤ length raw.now }
{
    Parts {
        version: raw[4],
        nodes: raw[5],
        driven: raw[6],
        output: raw[7],
        rate: bytes::unsigned_at::<4>(raw, 8) as u32,
        element_count: raw[12],
        elements: elements(raw),
        curve_count: raw[13],
        curves: curves(raw),
    }
}
