// The rules of a measured list. Every number is tested as it was given, with its sign and at its full
// width, so that none is too large or too small to be refused.
ghost use Rattle.std.specs.Prelude.{◌≡◌, suc, ◌+◌, ◌<◌, length};
ghost use Rattle.units.specs.Table.{every};
ghost use Rattle.measured.specs.Measured.{follows, size_at, count_fits, pairs_fit};

const FEWEST: usize = 2;

// More pairs than these make no curve.
pub const MOST: usize = 17;

// The greatest voltage, in microvolts, and the greatest current, in femtoamperes.
const VOLTAGE: i64 = 67108864;

const CURRENT: i64 = 72057594037927936;

// How large a number of a list is.
pub fn size_at(list: &[i64], j: usize) -> u64
    requires { j < length list.now }
    ensures { result ≡ size_at list.now j }
{
    list[j].unsigned_abs()
}

// Whether the pair after pair j may follow it.
fn follows(voltages: &[i64], currents: &[i64], j: usize) -> bool
    requires { (suc j < length voltages.now) × (suc j < length currents.now) }
    ensures { result ≡ follows voltages.now currents.now j }
{
    (voltages[j] < voltages[j + 1])
        & (voltages[j + 1] <= VOLTAGE)
        & (currents[j] <= currents[j + 1])
        & (currents[j + 1] <= CURRENT)
}

// Whether each of the n pairs after the first may follow the one before it.
fn all_follow(voltages: &[i64], currents: &[i64], n: usize) -> bool
    requires { (n < length voltages.now) × (n < length currents.now) }
    ensures { result ≡ every (follows voltages.now currents.now) n }
{
    for j in 0..n {
        if !follows(voltages, currents, j) {
            return false;
        }
    }
    true
}

// Whether there are as many voltages as currents, and as many pairs as there may be.
fn count_fits(voltages: &[i64], currents: &[i64]) -> bool
    ensures { result ≡ count_fits voltages.now currents.now }
{
    let n = voltages.len();
    (n == currents.len()) & ((FEWEST <= n) & (n <= MOST))
}

// Whether a list keeps every rule of its pairs.
pub fn fit(voltages: &[i64], currents: &[i64]) -> bool
    ensures { result ≡ pairs_fit voltages.now currents.now }
{
    if !count_fits(voltages, currents) {
        return false;
    }
    let others = voltages.len() - 1;
    (size_at(voltages, 0) == 0)
        & (size_at(currents, 0) == 0)
        & all_follow(voltages, currents, others)
}
