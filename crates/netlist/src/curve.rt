// A curve's numbers, from a place of its line to the end.
ghost use Rattle.std.specs.Prelude.{◌≡◌};
ghost use Rattle.netlist.specs.Curve.{minus_at, digits_at, breakpoint_at, stretch_stands, after_stretch, with_stretch, with_slope};
ghost use Rattle.netlist.specs.Kept.{kept_breakpoint, kept_count, Right};
ghost use Rattle.netlist.specs.Line.{CurveLine};

use super::said::Line;
use super::{field, store};
use console::words::Run;
use console::{number, words};
use image::Curve;

const MINUS: u8 = 45;

// Whether a minus stands at a place.
fn minus_at(s: &[u8], at: usize) -> bool
    ensures { result ≡ minus_at s.now at }
{
    words::byte_at(s, at) == MINUS
}

// Where a breakpoint's digits begin.
fn digits_at(s: &[u8], at: usize) -> usize
    ensures { result ≡ digits_at s.now at }
{
    if minus_at(s, at) {
        return at + 1;
    }
    at
}

// The breakpoint at a place, as a field keeps it.
fn breakpoint_at(s: &[u8], at: usize) -> i32
    ensures { result ≡ kept_breakpoint (breakpoint_at s.now at) }
{
    number::value(minus_at(s, at), field::size(s, digits_at(s, at))) as i32
}

// Whether a slope and a breakpoint stand there.
fn stretch_stands(s: &[u8], at: usize) -> bool
    ensures { result ≡ stretch_stands s.now at }
{
    let breakpoint = field::next(Run::Digits, s, at);
    field::stands(Run::Digits, s, at) & field::stands(Run::Digits, s, digits_at(s, breakpoint))
}

// Where the slope after them begins.
fn after_stretch(s: &[u8], at: usize) -> usize
    ensures { result ≡ after_stretch s.now at }
{
    let breakpoint = field::next(Run::Digits, s, at);
    field::next(Run::Digits, s, digits_at(s, breakpoint))
}

// The curve with a slope and a breakpoint more.
fn with_stretch(c: Curve, slope: u32, breakpoint: i32) -> Curve
    ensures { result ≡ kept_count (with_stretch c slope breakpoint) }
{
    let j = c.count as usize;
    let slopes = store::set_at(c.slopes, j, slope);
    let breakpoints = store::set_at(c.breakpoints, j, breakpoint);
    Curve {
        count: field::counted(c.count),
        slopes,
        breakpoints,
    }
}

// The curve with its last slope.
fn with_slope(c: Curve, slope: u32) -> Curve
    ensures { result ≡ with_slope c slope }
{
    let slopes = store::set_at(c.slopes, c.count as usize, slope);
    let breakpoints = c.breakpoints;
    Curve {
        count: c.count,
        slopes,
        breakpoints,
    }
}

// The curve that the numbers from a place on are, or a broken line.
pub fn read(s: &[u8], from: usize) -> Line
    ensures { Right (CurveLine s.now from) result }
{
    let mut curve = image::no_curve();
    let mut at = from;
    while stretch_stands(s, at) {
        let slope = field::word(s, at);
        let breakpoint = breakpoint_at(s, field::next(Run::Digits, s, at));
        curve = with_stretch(curve, slope, breakpoint);
        at = after_stretch(s, at);
    }
    if !field::ends(s, at) {
        return Line::Broken;
    }
    Line::Curve(with_slope(curve, field::word(s, at)))
}
