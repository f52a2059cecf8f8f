// How a block ends.
ghost use Rattle.std.specs.Prelude.{◌≡◌, ◌+◌, ◌*◌, ◌≤◌};
ghost use Rattle.units.specs.Number.{number_of};
ghost use Rattle.block.specs.Block.{block_limit};

use units::number::Number;

// Document 01's number, and how many samples were accepted.
#[derive(Clone, Copy)]
pub struct Ending {
    pub number: Number,
    pub count: u64,
}

impl Ending {
    // With no sample done.
    pub fn refused(number: Number) -> Ending
        ensures { (result.number ≡ number) × (result.count ≡ 0) }
    {
        Ending { number, count: 0 }
    }

    // Both in one number, as a host in C is answered.
    pub fn packed(self) -> u64
        requires { self.count ≤ block_limit }
        ensures { result ≡ number_of self.number * 65536 + self.count }
    {
        u64::from(self.number) * 65536 + self.count
    }
}
