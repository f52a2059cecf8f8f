// The voltage, in whole microvolts: its two limits, its two range tests, and its way to f64 and
// back. Each limit and each test stands here once, and every layer uses them.
ghost use Rattle.std.specs.Prelude.{◌≡◌, ℕ, ◌^◌, ◌≤◌, true, false, ℤ, unsigned_abs};
ghost use Rattle.units.specs.Voltage.{within, voltage_limit, drive_limit, above_bottom, below_top, clamped};
ghost use Rattle.units.specs.Float.{Converted, Positive, nearest_size, rounded, nearest_voltage};

use super::signed;

#[derive(Clone, Copy)]
pub struct Voltage {
    pub microvolts: i64,
}

// The test that both limits share: whether z lies from -limit to limit.
fn within(z: i64, limit: i64) -> bool
    ensures { result ≡ within (unsigned_abs limit) z }
{
    signed::size(z) <= signed::size(limit)
}

// A number of microvolts as a voltage, where it is in range.
fn ranged(z: i64) -> Option<Voltage>
    ensures { result ≡ rounded z }
{
    let v = Voltage { microvolts: z };
    v.in_range().then_some(v)
}

// An f64 above zero to the nearest whole number, halves upward. Twice a float is a float, so that
// nothing is rounded before the halves are seen.
fn nearest_size(y: f64) -> i64
    requires { Positive y }
    ensures value { result ≡ nearest_size y }
    ensures result_bound { unsigned_abs result ≤ 2 ^ 62 }
{
    ((std::num::truncating_f64_to_u64(y + y) + 1) / 2) as i64
}

impl Voltage {
    // The voltage limit, in microvolts.
    pub const LIMIT: i64 = 33554432;

    // The drive limit, in microvolts.
    pub const DRIVE_LIMIT: i64 = 16777216;

    // Whether a node may stand at this voltage.
    pub fn in_range(self) -> bool
        ensures { result ≡ within voltage_limit self.microvolts }
    {
        within(self.microvolts, Voltage::LIMIT)
    }

    // Whether a node may be driven to this voltage.
    pub fn in_drive(self) -> bool
        ensures { result ≡ within drive_limit self.microvolts }
    {
        within(self.microvolts, Voltage::DRIVE_LIMIT)
    }

    // Whether it stands above the bottom of the range.
    pub fn above_bottom(self) -> bool
        ensures { result ≡ above_bottom self.microvolts }
    {
        -Voltage::LIMIT < self.microvolts
    }

    // Whether it stands below the top of the range.
    pub fn below_top(self) -> bool
        ensures { result ≡ below_top self.microvolts }
    {
        self.microvolts < Voltage::LIMIT
    }

    // The voltage in range that is nearest to v.
    pub fn clamped(v: i64) -> i64
        ensures { result ≡ clamped v }
    {
        let u = Voltage { microvolts: v };
        if u.in_range() {
            return v;
        }
        if v < 0 {
            return -Voltage::LIMIT;
        }
        Voltage::LIMIT
    }

    // The nearest f64, which for a voltage in range is that voltage exactly.
    pub fn to_f64(self) -> f64
        ensures { Converted self.microvolts result }
    {
        std::num::nearest_i64_to_f64(self.microvolts)
    }

    // The nearest voltage, halves away from zero; none for a NaN, an infinity or a result out of
    // range. What is 2^62 or more in size is out of range by far, and is not converted at all.
    pub fn from_f64(x: f64) -> Option<Voltage>
        ensures { result ≡ nearest_voltage x }
    {
        if 0.0 < x {
            if x < 4611686018427387904.0 {
                return ranged(nearest_size(x));
            }
            return None;
        }
        if x < 0.0 {
            let y = -x;
            if y < 4611686018427387904.0 {
                return ranged(-nearest_size(y));
            }
            return None;
        }
        if x == 0.0 {
            return ranged(0);
        }
        None
    }
}
