// A curve put into the table of stretches, once for a circuit.
ghost use Rattle.std.specs.Prelude.{◌≡◌, [], ◌∷◌, ℕ, ◌+◌, ◌*◌, ◌^◌, ◌≤◌, ◌<◌, length, pos, nat_abs, ◌*ℤ◌};
ghost use Rattle.units.specs.Table.{overlaid};
ghost use Rattle.units.specs.Voltage.{Within};
ghost use Rattle.network.specs.Network.{conductance_limit, breakpoint_limit, CurveInLimits};
ghost use Rattle.stretch.specs.Stretch.{rows, stretches_size, at_zero_in, slopes_to, breakpoints_to, Step, Drawn, Lowered, Filled};

use crate::curve::Curve;
use crate::stretches;

// A slope times a breakpoint.
fn product(slope: u32, b: i32) -> i64
    requires { (slope ≤ conductance_limit) × Within breakpoint_limit b }
    ensures { (result ≡ pos slope *ℤ b) × (nat_abs result ≤ 2 ^ 56) }
{
    slope as i64 * b as i64
}

// How far the line of stretch i + 1 lies above that of stretch i at zero volts.
fn step(slopes: &[u32; 17], breakpoints: &[i32; 16], m: usize, i: usize) -> i64
    requires { CurveInLimits (slopes_to slopes.now m) (breakpoints_to breakpoints.now m) × (i < m) }
    ensures { Step (slopes_to slopes.now m) (breakpoints_to breakpoints.now m) i result }
{
    let b = breakpoints[i];
    product(slopes[i], b) - product(slopes[i + 1], b)
}

// A row's three numbers.
fn put(stretches: &mut [i64; 408], row: usize, breakpoint: i64, slope: i64, current: i64)
    requires { row < rows }
    ensures { stretches.new ≡ overlaid stretches.old (3 * row) (breakpoint ∷ slope ∷ current ∷ []) }
{
    stretches[3 * row] = breakpoint;
    stretches[3 * row + 1] = slope;
    stretches[3 * row + 2] = current;
}

// Puts a curve's stretches into the table, from row `first` on, each line counted from that of stretch 0.
fn draw(
    slopes: &[u32; 17],
    breakpoints: &[i32; 16],
    m: usize,
    first: usize,
    stretches: &mut [i64; 408],
)
    requires { CurveInLimits (slopes_to slopes.now m) (breakpoints_to breakpoints.now m) × (first + m < rows) × (length stretches.old ≡ stretches_size) }
    ensures { Drawn (slopes_to slopes.now m) (breakpoints_to breakpoints.now m) stretches.old first (m + 1) stretches.new }
{
    let mut line: i64 = 0;
    for i in 0..m {
        put(
            stretches,
            first + i,
            breakpoints[i] as i64,
            slopes[i] as i64,
            line,
        );
        line += step(slopes, breakpoints, m, i);
    }
    put(stretches, first + m, 0, slopes[m] as i64, line);
}

// Takes a current off the lines of n rows.
fn lower(stretches: &mut [i64; 408], first: usize, n: usize, current: i64)
    requires { (first + n ≤ rows) × (length stretches.old ≡ stretches_size) × ((i : ℕ) → i < n → nat_abs (at_zero_in stretches.old (first + i)) + nat_abs current < 2 ^ 63) }
    ensures { Lowered stretches.old first n current stretches.new }
{
    for i in 0..n {
        stretches[3 * (first + i) + 2] -= current;
    }
}

// Puts a curve's stretches into the table, from row `first` on. Which of its lines has no current at zero
// volts is known once its breakpoints stand there to be searched.
pub fn fill(
    slopes: &[u32; 17],
    breakpoints: &[i32; 16],
    m: usize,
    first: usize,
    stretches: &mut [i64; 408],
)
    requires { CurveInLimits (slopes_to slopes.now m) (breakpoints_to breakpoints.now m) × (first + m < rows) × (length stretches.old ≡ stretches_size) }
    ensures { Filled (slopes_to slopes.now m) (breakpoints_to breakpoints.now m) stretches.old first (m + 1) stretches.new }
{
    draw(slopes, breakpoints, m, first, stretches);
    let zero = first
        + Curve {
            stretches,
            first,
            breakpoints: m,
        }
        .stretch(0);
    let current = stretches::at_zero(stretches, zero);
    lower(stretches, first, m + 1, current);
}
