// The curve of a measured list: its slopes stretch by stretch, and its breakpoints.
ghost use Rattle.std.specs.Prelude.{◌≡◌, true, ℕ, suc, ◌≤◌, ◌<◌, pos, length};
ghost use Rattle.units.specs.Table.{padded};
ghost use Rattle.network.specs.Network.{reading, breakpoint_limit, breakpoint_count_limit};
ghost use Rattle.measured.specs.Measured.{number_of, answer_number, size_at, width_after, largest, pairs_fit, drawn, measured};

use super::pairs;
use image::Curve;

// What stands against a list: a rule of the pairs, or a slope that no curve may have.
#[derive(Clone, Copy)]
pub enum Refusal {
    Pairs,
    Slope,
}

// Document 02's number.
impl From<Refusal> for u64 {
    ghost from_gives = { λ refusal n. n ≡ number_of refusal };

    fn from(refusal: Refusal) -> u64 {
        match refusal {
            Refusal::Pairs => 12,
            Refusal::Slope => 13,
        }
    }
}

// Document 02's number of what a list came to: 0 for a curve.
pub fn number(made: &Result<Curve, Refusal>) -> u64
    ensures { result ≡ answer_number made.now }
{
    match made {
        Ok(_) => 0,
        Err(refusal) => u64::from(*refusal),
    }
}

// The greatest slope, in nanosiemens.
const SLOPE: u64 = 1073741824;

// Microvolts from pair j to the next.
fn width_after(voltages: &[i64], j: usize) -> u64
    requires { (suc j < length voltages.now) × (size_at voltages.now j ≤ size_at voltages.now (suc j)) }
    ensures { result ≡ width_after voltages.now j }
{
    pairs::size_at(voltages, j + 1) - pairs::size_at(voltages, j)
}

// The largest slope that goes no further than from one current to the other.
fn largest(from: u64, to: u64, width: u64) -> u64
    requires { (from ≤ to) × (0 < width) }
    ensures { result ≡ largest from to width }
{
    (to - from) / width
}

// The voltages of the first n pairs.
fn breakpoints(voltages: &[i64], n: usize) -> [i32; 16]
    requires { (n ≤ breakpoint_count_limit) × (n ≤ length voltages.now) × ((j : ℕ) → size_at voltages.now j ≤ breakpoint_limit) }
    ensures { result ≡ padded (pos 0) breakpoint_count_limit (reading voltages.now) n }
{
    let mut breakpoints = [0; 16];
    for j in 0..n {
        breakpoints[j] = voltages[j] as i32;
    }
    breakpoints
}

// The curve of a list that keeps the rules of its pairs.
fn draw(voltages: &[i64], currents: &[i64]) -> Result<Curve, Refusal>
    requires { pairs_fit voltages.now currents.now ≡ true }
    ensures { result ≡ drawn voltages.now currents.now }
{
    let last = voltages.len() - 1;
    let mut slopes = [0u32; 17];
    let mut reached: u64 = 0;
    for j in 0..last {
        let width = width_after(voltages, j);
        let slope = largest(reached, pairs::size_at(currents, j + 1), width);
        if SLOPE < slope {
            return Err(Refusal::Slope);
        }
        slopes[j + 1] = slope as u32;
        reached += slope * width;
    }
    Ok(Curve {
        count: last as u8,
        slopes,
        breakpoints: breakpoints(voltages, last),
    })
}

// Measured voltages, in microvolts, and currents, in femtoamperes, to the curve through or below them.
pub fn curve(voltages: &[i64], currents: &[i64]) -> Result<Curve, Refusal>
    ensures { result ≡ measured voltages.now currents.now }
{
    if !pairs::fit(voltages, currents) {
        return Err(Refusal::Pairs);
    }
    draw(voltages, currents)
}
