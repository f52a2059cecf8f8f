// The advance of stored currents from one sample to the next: all of them, or none if one would be beyond its
// limit.
ghost use Rattle.std.specs.Prelude.{◌≡◌, ◌<◌, length};
ghost use Rattle.units.specs.Voltage.{Within, within};
ghost use Rattle.network.specs.Network.{stored_limit};
ghost use Rattle.circuit.specs.Board.{count_on, Laid, Ranged, Evaluable};
ghost use Rattle.circuit.specs.Advance.{Twice, next_on, Advancing};

use crate::Circuit;
use network::kind::Kind;

// The limit of a stored current, in femtoamperes.
pub const LIMIT: u64 = 144115188075855872;
// Whether a stored current is within its limit.
pub fn is_kept(x: i64) -> bool
    ensures { result ≡ within stored_limit x }
{
    x.unsigned_abs() <= LIMIT
}
// A stored current would be beyond its limit.
#[derive(Clone, Copy)]
pub struct Beyond;

impl Circuit {
    // Twice what the conductance of element j carries at its voltage.
    fn twice(&self, volts: &[i64; 16], j: usize) -> i64
        requires { Laid self.now.board self.now.stretches × Ranged self.now.board volts.now × (j < count_on self.now.board) }
        ensures { Twice self.now.board volts.now j result }
    {
        (2 * self.plain_conductance(j)) as i64 * self.across(volts, j)
    }

    // The stored current of element j after a sample, x being the one before it.
    fn next_stored(&self, volts: &[i64; 16], j: usize, x: i64) -> i64
        requires { Laid self.now.board self.now.stretches × Ranged self.now.board volts.now × (j < count_on self.now.board) × Within stored_limit x }
        ensures { result ≡ next_on self.now.board self.now.stretches volts.now j x }
    {
        match Kind::of(self.kind(j)) {
            Some(Kind::Capacitor) => self.twice(volts, j) - x,
            Some(Kind::Inductor) => x - self.twice(volts, j),
            Some(Kind::Resistor) => 0,
            Some(Kind::Diode) => 0,
            None => 0,
        }
    }

    // All stored currents after a sample with these voltages, if every one is within its limit. Each is stored
    // where it was; if one is beyond its limit, all are put back.
    pub fn advance(&self, volts: &[i64; 16], stored: &mut [i64; 32]) -> Result<(), Beyond>
        requires { Evaluable self.now.board self.now.stretches stored.old volts.now × (length stored.old ≡ 32) }
        ensures { Advancing self.now.board self.now.stretches volts.now stored.old result stored.new }
    {
        let count = self.count();
        let before = *stored;
        for j in 0..count {
            let x = self.next_stored(volts, j, stored[j]);
            if !is_kept(x) {
                *stored = before;
                return Err(Beyond);
            }
            stored[j] = x;
        }
        Ok(())
    }
}
