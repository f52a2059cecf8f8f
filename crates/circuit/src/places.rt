// Arrays of microvolts with a place for each node, ground's first. That there are 16 of them is known of
// an array, and not of a reference.
ghost use Rattle.std.specs.Prelude.{◌≡◌, ◌≤◌, length};
ghost use Rattle.circuit.specs.Places.{Taken};

fn known(volts: [i64; 16]) -> [i64; 16]
    ensures { (result ≡ volts) × (length volts ≡ 16) }
{
    volts
}

// The places once more.
pub fn copied(volts: &[i64; 16]) -> [i64; 16]
    ensures { (result ≡ volts.now) × (length volts.now ≡ 16) }
{
    known(*volts)
}

// The places from `first` up to `end` taken over from another array.
pub fn take(from: &[i64; 16], first: usize, end: usize, to: &mut [i64; 16])
    requires { (first ≤ end) × (end ≤ 16) × (length to.old ≡ 16) }
    ensures { Taken from.now first end to.old to.new }
{
    for i in first..end {
        to[i] = from[i];
    }
}
