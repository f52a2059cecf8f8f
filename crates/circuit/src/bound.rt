// The least bound B of demand 3: how many microvolts another solution can be away at the most.
ghost use Rattle.std.specs.Prelude.{◌^◌, ◌<◌};
ghost use Rattle.circuit.specs.Board.{Laid};
ghost use Rattle.circuit.specs.Bound.{AtNode, Bounding};

use crate::Circuit;
use units::signed;

// The least B with B times `held` at least `steepest` and e together; none where it does not fit. The quotient
// goes first, so that no sum wraps that the bound itself would not.
fn at_node(steepest: u64, held: u64, e: u64) -> Option<u64>
    requires { (0 < held) × (held < 2 ^ 36) × (steepest < 2 ^ 36) }
    ensures { AtNode steepest held e result }
{
    let whole = e / held;
    let rest = signed::rounded_up(e % held + steepest, held);
    whole.checked_add(rest)
}

impl Circuit {
    // The least B that is enough at every free node, for currents that miss zero by at most e;
    // none where there is no free node or it does not fit.
    pub fn least_bound(&self, e: u64) -> Option<u64>
        requires { Laid self.now.board self.now.stretches }
        ensures { Bounding self.now.board self.now.stretches e result }
    {
        let driven = self.driven();
        let nodes = self.nodes();
        if driven == nodes {
            return None;
        }
        let mut most: u64 = 0;
        for k in driven..nodes {
            let least = at_node(self.steepest(k + 1), self.held(k + 1), e)?;
            most = most.max(least);
        }
        Some(most)
    }
}
