// The table of stretches: breakpoint, slope and current at zero volts of each, so that a current is one
// search, one product and one sum. `specs/Stretch.antt` says which place has which.
ghost use Rattle.std.specs.Prelude.{◌≡◌, ◌<◌};
ghost use Rattle.stretch.specs.Stretch.{rows, breakpoint_in, slope_in, at_zero_in};

// The numbers of a row.
pub fn breakpoint(stretches: &[i64; 408], row: usize) -> i64
    requires { row < rows }
    ensures { result ≡ breakpoint_in stretches.now row }
{
    stretches[3 * row]
}

pub fn slope(stretches: &[i64; 408], row: usize) -> u64
    requires { row < rows }
    ensures { result ≡ slope_in stretches.now row }
{
    stretches[3 * row + 1].unsigned_abs()
}

pub fn at_zero(stretches: &[i64; 408], row: usize) -> i64
    requires { row < rows }
    ensures { result ≡ at_zero_in stretches.now row }
{
    stretches[3 * row + 2]
}
