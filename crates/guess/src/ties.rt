// Ties: how voltages that solve the straight lines exactly become whole microvolts.
//
// A stiff link carries current in steps of its conductance, so where it joins two free nodes the
// nearest whole voltages can be far from the answer: the current that a cut to whole microvolts leaves
// over has to go through the weak conductances of its lighter side. So the links that weigh most are
// taken first, and the difference across each is tied to the whole number below or above. With the
// number below, the side that the link leads away from has current to spare; with the one above, the
// other side has. The spared row gives way to the tie, and all nodes sink by as much as the spared
// current makes them; the way on which they sink less is taken.
//
// Nothing is eliminated again for that. A row's column of the inverse is how the nodes answer to a
// current in that row; once a row is spared, every other column is changed so that it leaves the tie
// as it is. Columns are kept as rows. Voltages here are what is added to whole microvolts, so a tie's
// difference is a whole number too.
ghost use Rattle.std.specs.Prelude.{◌<◌, ◌≤◌, IfSome};

use crate::choice::{self, Choice, Price, Tie};
use crate::matrix::{self, Matrix, Vector};
use crate::memory::Memory;
use crate::rows::{self, Rows};
use crate::sets::Sets;
use crate::way::{self, Step};
use crate::{links, whole};

// The columns as the ties have changed them, and their sums; how far each node has to go, which current is
// over in the spared rows, and which rows are tied.
#[derive(Clone, Copy)]
pub struct Ties {
    columns: Matrix,
    sums: Vector,
    pub at: Vector,
    over: Vector,
    pub sets: Sets,
}

// Whether the ties go the remembered way, or have left it and note where they go, or can't be noted any
// more: a strained row was relieved.
#[derive(Clone, Copy, PartialEq, Eq)]
enum State {
    Follows,
    Notes,
    Left,
}

// How often a strained row may take its root's place.
const SWAPS: usize = 16;

impl Ties {
    // All nodes sink by `by` times u, which takes as much of y off the rows' currents; those in force stay
    // balanced.
    pub fn sink(&mut self, u: &Vector, y: &Vector, by: f64) {
        for k in 0..15 {
            let over = self.over[k] - by * y[k];
            self.at[k] -= by * u[k];
            self.over[k] = if self.sets.spared[k] { over } else { 0.0 };
        }
    }

    // Column c takes f times u, whose sum is given, off itself.
    fn turn(&mut self, c: usize, u: &Vector, sum: f64, f: f64)
        requires { c < 15 }
    {
        matrix::add(u, -f, &mut self.columns[c]);
        self.sums[c] -= f * sum;
    }

    // Every column in force changed so that it leaves the difference of two rows as it is.
    fn level(&mut self, u: &Vector, spared: usize, keeps: usize, rows: Rows)
        requires { (spared < 15) × (keeps < 15) }
    {
        let sum = self.sums[spared];
        let inverse = 1.0 / (u[spared] - u[keeps]);
        for c in rows.first..rows.end {
            if !self.sets.spared[c] {
                let f = (self.columns[c][spared] - self.columns[c][keeps]) * inverse;
                self.turn(c, u, sum, f);
            }
        }
    }

    // A root is tied to another, and their sets are one. y is what that makes of the rows' currents.
    fn tie(&mut self, tie: Tie, y: &Vector, rows: Rows) {
        let u = self.columns[tie.spared];
        self.sets.spare(tie.spared);
        self.sink(&u, y, tie.by);
        self.level(&u, tie.spared, tie.keeps, rows);
        self.sets.tie(tie.spared, tie.keeps);
    }

    // Whether row k has less to spare than nothing, if it is spared and gives `by` times y.
    fn strains(&self, m: &Matrix, y: &Vector, by: f64, k: usize) -> bool
        requires { k < 15 }
    {
        self.sets.spared[k] && m[k][k] * whole::ROUNDED < self.over[k] - by * y[k]
    }

    // The first row that does.
    pub fn strained(&self, m: &Matrix, y: &Vector, by: f64, rows: Rows) -> Option<usize>
        ensures { IfSome result (λ k. k < 15) }
    {
        for k in rows.first..rows.end {
            if self.strains(m, y, by, k) {
                return Some(k);
            }
        }
        None
    }

    // What a column has in common with a row of the matrix: the current in that row.
    fn current(&self, m: &Matrix, i: usize, c: usize, rows: Rows) -> f64
        requires { (i < 15) × (c < 15) }
    {
        let mut sum: f64 = 0.0;
        for k in rows.first..rows.end {
            sum += m[i][k] * self.columns[c][k];
        }
        sum
    }

    // Every column in force changed so that it leaves row i's current as it is.
    fn balance(&mut self, m: &Matrix, u: &Vector, sum: f64, i: usize, inverse: f64, rows: Rows)
        requires { i < 15 }
    {
        for c in rows.first..rows.end {
            if !self.sets.spared[c] && c != i {
                let f = self.current(m, i, c, rows) * inverse;
                self.turn(c, u, sum, f);
            }
        }
    }

    // Row i, which is strained, takes the place of its set's root r, whose column makes the currents y.
    fn take_place(&mut self, m: &Matrix, y: &Vector, r: usize, i: usize, rows: Rows)
        requires { (r < 15) × (i < 15) }
    {
        let u = self.columns[r];
        let inverse = 1.0 / y[i];
        let by = self.over[i] * inverse;
        let sum = self.sums[r];
        self.sets.swap(r, i);
        self.over[r] = 0.0;
        self.sink(&u, y, by);
        self.balance(m, &u, sum, i, inverse, rows);
        self.columns[i] = [0.0f64; 15];
        matrix::add(&u, inverse, &mut self.columns[i]);
        self.sums[i] = sum * inverse;
    }

    // As long as a row is strained, and often enough.
    fn relieve(&mut self, m: &Matrix, rows: Rows) {
        for _ in 0..SWAPS {
            let Some(i) = self.strained(m, &[0.0f64; 15], 0.0, rows) else {
                return;
            };
            let r = self.sets.root(i);
            let y = matrix::times(m, &self.columns[r], rows);
            if !(0.0 < y[i]) {
                return;
            }
            self.take_place(m, &y, r, i, rows);
        }
    }

    // How high all nodes stand together.
    fn height(&self, rows: Rows) -> f64 {
        let mut sum: f64 = 0.0;
        for k in rows.first..rows.end {
            sum += self.at[k];
        }
        sum
    }

    // A root is tied to another, and then strained rows are relieved.
    fn tie_strained(&mut self, m: &Matrix, tie: Tie, rows: Rows) {
        let y = matrix::times(m, &self.columns[tie.spared], rows);
        self.tie(tie, &y, rows);
        self.relieve(m, rows);
    }

    // Two ways, the first of which strains a row. The higher one is taken.
    fn higher(&mut self, m: &Matrix, choice: Choice, rows: Rows) {
        let mut other = *self;
        let before = self.height(rows);
        self.tie_strained(m, choice.tie, rows);
        if before - self.height(rows) <= choice.loss {
            return;
        }
        other.tie_strained(m, choice.other, rows);
        if self.height(rows) < other.height(rows) {
            *self = other;
        }
    }

    // The way that costs less is taken, unless it strains a row. Whether it can be noted.
    fn cheaper(&mut self, m: &Matrix, y: &Vector, choice: Choice, rows: Rows) -> bool {
        if self.strained(m, y, choice.tie.by, rows).is_some() {
            self.higher(m, choice, rows);
            return false;
        }
        self.tie(choice.tie, y, rows);
        true
    }

    // Two roots are tied, at link k, and that is noted, if all before it were.
    fn tie_roots(
        &mut self,
        memory: &mut Memory,
        k: usize,
        state: State,
        r: usize,
        s: usize,
        rows: Rows,
    ) -> State
        requires { (k < 15) × (r < 15) × (s < 15) }
    {
        let at_r = self.columns[r][r] - self.columns[r][s];
        let at_s = self.columns[s][s] - self.columns[s][r];
        if !(0.0 < at_r && 0.0 < at_s) {
            return State::Left;
        }
        let price_one = Price {
            current: 1.0 / at_r,
            sum: self.sums[r],
        };
        let price_other = Price {
            current: 1.0 / at_s,
            sum: self.sums[s],
        };
        let below = whole::fraction(self.at[r] - self.at[s]);
        let choice = choice::cheaper(r, s, price_one, price_other, below);
        let answers = self.columns[choice.tie.spared];
        let currents = matrix::times(&memory.slopes, &answers, rows);
        let noted = self.cheaper(&memory.slopes, &currents, choice, rows);
        if state == State::Notes {
            memory.way[k] = Step {
                spared: choice.tie.spared,
                keeps: choice.tie.keeps,
                answers,
                currents,
                price_one,
                price_other,
            };
            memory.remembered = if noted { k + 1 } else { k };
        }
        if noted { state } else { State::Left }
    }

    // The columns and their sums as they are after the first n links of the remembered way.
    fn rebuild(&mut self, memory: &Memory, n: usize, rows: Rows)
        requires { n ≤ 15 }
    {
        let sets = self.sets;
        self.sets = Sets::alone();
        self.columns = memory.inverse;
        self.sums = matrix::times(&memory.inverse, &[1.0f64; 15], rows);
        for k in 0..n {
            let step = &memory.way[k];
            let spared = rows::row(step.spared);
            self.sets.spare(spared);
            self.level(&step.answers, spared, rows::row(step.keeps), rows);
        }
        self.sets = sets;
    }

    // Link k is tied.
    fn tie_link(&mut self, memory: &mut Memory, k: usize, state: State, rows: Rows) -> State
        requires { k < 14 }
    {
        let (one, other) = memory.links[k];
        let r = self.sets.root(rows::row(one));
        let s = self.sets.root(rows::row(other));
        if state != State::Follows {
            return self.tie_roots(memory, k, state, r, s, rows);
        }
        if k < memory.remembered && way::follow(memory, self, k, r, s, rows) {
            return State::Follows;
        }
        self.rebuild(memory, k, rows);
        self.tie_roots(memory, k, State::Notes, r, s, rows)
    }

    // A root is cut downward, and the others of its set follow by their ties.
    fn landed(&self, rows: Rows) -> Vector {
        let mut whole = [0.0f64; 15];
        for k in rows.first..rows.end {
            let at = self.at[self.sets.root(k)];
            whole[k] = whole::floor(at) + whole::nearest(self.at[k] - at);
        }
        whole
    }
}

// How many stiff links there are; they are noted, once for a matrix.
fn known_links(memory: &mut Memory, rows: Rows) -> usize
    ensures { result ≤ 14 }
{
    if let Some(n) = memory.link_count {
        return n.min(14);
    }
    let n = links::order(&memory.slopes, rows, &mut memory.links);
    memory.link_count = Some(n);
    n
}

// Every node cut downward.
fn floors(x: Vector, rows: Rows) -> Vector {
    let mut whole = x;
    for k in rows.first..rows.end {
        whole[k] = whole::floor(x[k]);
    }
    whole
}

// How far the nodes that have to go by x best go in whole numbers. The links are noted, and the way that
// the ties went.
pub fn cut(memory: &mut Memory, x: Vector, rows: Rows) -> Vector {
    let links = known_links(memory, rows);
    if links == 0 {
        return floors(x, rows);
    }
    let mut ties = Ties {
        columns: [[0.0f64; 15]; 15],
        sums: [0.0f64; 15],
        at: x,
        over: [0.0f64; 15],
        sets: Sets::alone(),
    };
    let mut state = State::Follows;
    for k in 0..links {
        state = ties.tie_link(memory, k, state, rows);
    }
    ties.landed(rows)
}
