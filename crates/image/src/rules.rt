// Rules 2 to 5 over a circuit's parts, whatever they come from.
ghost use Rattle.std.specs.Prelude.{◌≡◌, true, ℕ, suc, ◌≤◌, ◌<◌, leb, get_or, length, ◌-◌};
ghost use Rattle.std.specs.Int.Signed.{lt_z};
ghost use Rattle.units.specs.Table.{every};
ghost use Rattle.units.specs.Voltage.{within};
ghost use Rattle.network.specs.Network.{branch_limit, conductance_limit, breakpoint_limit, breakpoint_count_limit};
ghost use Rattle.image.specs.Parts.{curve_limit, no_curve, header_fits, curve_size_fits, curve_sizes_fit, curve_fits, curves_fit, kind_allowed, element_fits, elements_fit};

use super::limits;
use super::parts::{Curve, Element, Parts};
use network::kind;
use network::kind::Kind;
use units::signed;

pub fn header_fits(parts: &Parts) -> bool
    ensures { result ≡ header_fits parts.now }
{
    ((1 <= parts.element_count) & (parts.element_count <= limits::ELEMENTS))
        & (parts.curve_count <= limits::CURVES)
        & ((1 <= parts.nodes) & (parts.nodes <= limits::NODES))
        & (parts.driven <= parts.nodes)
        & ((limits::LOWEST_RATE <= parts.rate) & (parts.rate <= limits::HIGHEST_RATE))
        & ((1 <= parts.output) & (parts.output <= parts.nodes))
        & ((limits::VERSION_1 <= parts.version) & (parts.version <= limits::VERSION_2))
}

// Whether a curve may have so many breakpoints.
pub fn curve_size_fits(m: usize) -> bool
    ensures { result ≡ curve_size_fits m }
{
    (1 <= m) & (m <= limits::BREAKPOINTS)
}

// Whether every curve may have as many as it has.
pub fn curve_sizes_fit(parts: &Parts) -> bool
    requires { parts.now.curve_count ≤ curve_limit }
    ensures { result ≡ curve_sizes_fit parts.now }
{
    parts.curves[..parts.curve_count as usize]
        .iter()
        .all(|c| curve_size_fits(c.count as usize))
}

fn slope_fits(slope: u32) -> bool
    ensures { result ≡ leb slope conductance_limit }
{
    slope as u64 <= limits::CONDUCTANCE
}

fn breakpoint_fits(breakpoint: i32) -> bool
    ensures { result ≡ within breakpoint_limit breakpoint }
{
    signed::size(breakpoint as i64) <= limits::BREAKPOINT
}

// Whether a curve's slopes and breakpoints are as they should be: of m breakpoints each lies above the
// one before, and there is one slope more.
fn curve_fits(c: &Curve) -> bool
    requires { (1 ≤ c.now.count) × (c.now.count ≤ breakpoint_count_limit) }
    ensures { result ≡ curve_fits c.now }
{
    let m = c.count as usize;
    let slopes = &c.slopes[..m + 1];
    let breakpoints = &c.breakpoints[..m];
    slopes.iter().all(|slope| slope_fits(*slope))
        & breakpoints
            .iter()
            .all(|breakpoint| breakpoint_fits(*breakpoint))
        & breakpoints.is_sorted_by(|a, b| *a < *b)
}

// Whether those of every curve are.
pub fn curves_fit(parts: &Parts) -> bool
    requires { (parts.now.curve_count ≤ curve_limit) × (curve_sizes_fit parts.now ≡ true) }
    ensures { result ≡ curves_fit parts.now }
{
    parts.curves[..parts.curve_count as usize]
        .iter()
        .all(|c| curve_fits(c))
}

// Whether a version has elements of a kind.
fn kind_allowed(version: u8, kind: u8) -> bool
    ensures { result ≡ kind_allowed version kind }
{
    Kind::of(kind as u64).is_some()
}

// Whether an element's fields are in their ranges.
fn element_fits(e: Element, version: u8, nodes: u8, curves: u8) -> bool
    ensures { result ≡ element_fits version nodes curves e }
{
    let ends = kind_allowed(version, e.kind) & (e.p <= nodes) & (e.q <= nodes) & (e.p != e.q);
    if kind::has_curve(e.kind as u64) {
        return ends & ((e.curve < curves) & (e.value == 0));
    }
    ends & ((e.curve == 0) & (1 <= e.value))
}

// Whether those of every element are.
pub fn elements_fit(parts: &Parts) -> bool
    requires { parts.now.element_count ≤ branch_limit }
    ensures { result ≡ elements_fit parts.now }
{
    parts.elements[..parts.element_count as usize].iter().all(|e| element_fits(
        *e,
        parts.version,
        parts.nodes,
        parts.curve_count,
    ))
}
