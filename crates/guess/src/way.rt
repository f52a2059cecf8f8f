// The way that the ties went in the last sample. As long as the matrix stays and the same rows are spared, a
// tie costs two vectors.
ghost use Rattle.std.specs.Prelude.{◌<◌};

use crate::choice::{self, Price};
use crate::matrix::Vector;
use crate::memory::Memory;
use crate::rows::Rows;
use crate::ties::Ties;
use crate::whole;

// What is remembered of a link: the row that is spared and the one that it is tied to, how the nodes answer
// to the spared row, which currents that makes, and what either root costs.
#[derive(Clone, Copy)]
pub struct Step {
    pub spared: usize,
    pub keeps: usize,
    pub answers: Vector,
    pub currents: Vector,
    pub price_one: Price,
    pub price_other: Price,
}

impl Step {
    pub const NONE: Step = Step {
        spared: 0,
        keeps: 0,
        answers: [0.0; 15],
        currents: [0.0; 15],
        price_one: Price {
            current: 0.0,
            sum: 0.0,
        },
        price_other: Price {
            current: 0.0,
            sum: 0.0,
        },
    };
}

// Link k, which joins the roots r and s, is tied as it was, if that is still the cheaper way and strains no
// row. Whether it was.
pub fn follow(memory: &Memory, ties: &mut Ties, k: usize, r: usize, s: usize, rows: Rows) -> bool
    requires { (k < 15) × (r < 15) × (s < 15) }
{
    let step = &memory.way[k];
    let below = whole::fraction(ties.at[r] - ties.at[s]);
    let tie = choice::cheaper(r, s, step.price_one, step.price_other, below).tie;
    if step.spared != tie.spared {
        return false;
    }
    if ties
        .strained(&memory.slopes, &step.currents, tie.by, rows)
        .is_some()
    {
        return false;
    }
    ties.sets.spare(tie.spared);
    ties.sink(&step.answers, &step.currents, tie.by);
    ties.sets.tie(tie.spared, tie.keeps);
    true
}
