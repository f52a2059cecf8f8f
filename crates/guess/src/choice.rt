// The two ways to tie two roots: by the whole number below their difference, which spares the first, or by
// the one above, which spares the second.
ghost use Rattle.std.specs.Prelude.{◌<◌};

// What a microvolt across the link takes of a root's current, and how far all nodes sink by a current in
// that root: the sum of its column.
#[derive(Clone, Copy)]
pub struct Price {
    pub current: f64,
    pub sum: f64,
}

// A root that is spared, which takes `by` of its current, and the one that it is tied to.
#[derive(Clone, Copy)]
pub struct Tie {
    pub spared: usize,
    pub keeps: usize,
    pub by: f64,
    pub ghost spared_there: { spared < 15 },
    pub ghost keeps_there: { keeps < 15 },
}

// The way on which the nodes sink less, the other one, and by how much they sink on that.
#[derive(Clone, Copy)]
pub struct Choice {
    pub tie: Tie,
    pub other: Tie,
    pub loss: f64,
}

// Of the roots r and s, whose difference is `below` above a whole number.
pub fn cheaper(r: usize, s: usize, price_r: Price, price_s: Price, below: f64) -> Choice
    requires { (r < 15) × (s < 15) }
{
    let by_r = below * price_r.current;
    let by_s = (1.0 - below) * price_s.current;
    let loss_r = by_r * price_r.sum;
    let loss_s = by_s * price_s.sum;
    let first = Tie {
        spared: r,
        keeps: s,
        by: by_r,
    };
    let second = Tie {
        spared: s,
        keeps: r,
        by: by_s,
    };
    if loss_s < loss_r {
        return Choice {
            tie: second,
            other: first,
            loss: loss_r,
        };
    }
    Choice {
        tie: first,
        other: second,
        loss: loss_s,
    }
}
