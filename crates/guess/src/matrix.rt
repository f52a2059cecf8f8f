// Matrices over the nodes, and vectors beside them. Row and column k are node k + 1's, driven nodes
// included: nothing is asked of their places, and a row by node number costs one subtraction. What is
// done for the free nodes goes over their rows alone.
//
// The matrix of the slopes is symmetric, off its diagonal nothing is above zero, and no row's sum is
// below: no pivot has to be searched for, and a column is read as a row. Vectors are added up row by
// row, so that no sum waits for its own last step.
ghost use Rattle.std.specs.Prelude.{◌<◌, ◌≤◌};

use crate::rows::Rows;

pub type Vector = [f64; 15];

pub type Matrix = [Vector; 15];

// There is no inverse, or it can't be had in this way.
#[derive(Clone, Copy)]
pub struct Singular;

// An update of the inverse whose divisor is no larger than this would lose too many digits.
const LEAST_DIVISOR: f64 = 0.01;

// The nodes at an element's two ends.
#[derive(Clone, Copy)]
pub struct Ends {
    pub p: usize,
    pub q: usize,
    pub ghost p_there: { p ≤ 15 },
    pub ghost q_there: { q ≤ 15 },
}

// An element of this slope joins two nodes. Ground has no row.
pub fn join(m: &mut Matrix, ends: Ends, slope: f64) {
    let p = ends.p;
    let q = ends.q;
    if 0 < p {
        m[p - 1][p - 1] += slope;
    }
    if 0 < q {
        m[q - 1][q - 1] += slope;
    }
    if 0 < p && 0 < q {
        m[p - 1][q - 1] -= slope;
        m[q - 1][p - 1] -= slope;
    }
}

// A vector, f times, is added to another. All 15 places, whatever the circuit's size: a loop of known
// length is unrolled.
pub fn add(v: &Vector, f: f64, sums: &mut Vector) {
    for (sum, x) in sums.iter_mut().zip(v) {
        *sum += f * *x;
    }
}

// m times v.
pub fn times(m: &Matrix, v: &Vector, rows: Rows) -> Vector {
    let mut sums = [0.0f64; 15];
    for j in rows.first..rows.end {
        add(&m[j], v[j], &mut sums);
    }
    sums
}

// Row k times f, its pivot being taken as one.
fn scale(a: &mut Matrix, k: usize, f: f64)
    requires { k < 15 }
{
    a[k][k] = 1.0;
    for x in a[k].iter_mut() {
        *x *= f;
    }
}

// Row k is taken off every other row as often as its column k has it, unless that is never: most circuits
// are sparse.
fn clear(a: &mut Matrix, k: usize, rows: Rows)
    requires { k < 15 }
{
    let row = a[k];
    for i in rows.first..rows.end {
        let f = a[i][k];
        if i != k && f != 0.0 {
            a[i][k] = 0.0;
            add(&row, -f, &mut a[i]);
        }
    }
}

// The inverse, pivot by pivot, unless one isn't above zero. The matrix itself stays whole, for what changes
// in it later is added to it, and its currents are asked for. A matrix that is handed up would be copied twice on
// the stack, which a host has little of: so its place is lent.
pub fn invert(m: &Matrix, rows: Rows, inverse: &mut Matrix) -> Result<(), Singular> {
    *inverse = *m;
    for k in rows.first..rows.end {
        let pivot = inverse[k][k];
        if !(0.0 < pivot) {
            return Err(Singular);
        }
        scale(inverse, k, 1.0 / pivot);
        clear(inverse, k, rows);
    }
    Ok(())
}

// How the nodes answer to a current that is taken out of q and into p. A fixed node has no row.
fn answers(inverse: &Matrix, ends: Ends, first: usize) -> Vector {
    let mut w = [0.0f64; 15];
    if first < ends.p {
        add(&inverse[ends.p - 1], 1.0, &mut w);
    }
    if first < ends.q {
        add(&inverse[ends.q - 1], -1.0, &mut w);
    }
    w
}

// What stands between p and q then.
fn between(w: &Vector, ends: Ends, first: usize) -> f64 {
    let at_p = if first < ends.p { w[ends.p - 1] } else { 0.0 };
    let at_q = if first < ends.q { w[ends.q - 1] } else { 0.0 };
    at_p - at_q
}

// w, times itself and f, is taken off.
fn take_product(a: &mut Matrix, w: &Vector, f: f64, rows: Rows) {
    for i in rows.first..rows.end {
        add(w, -(f * w[i]), &mut a[i]);
    }
}

// The inverse after the slope between two nodes has grown by this much: a change of rank one.
pub fn update(inverse: &mut Matrix, ends: Ends, slope: f64, rows: Rows) -> Result<(), Singular> {
    let w = answers(inverse, ends, rows.first);
    let divisor = 1.0 + slope * between(&w, ends, rows.first);
    if !(LEAST_DIVISOR < divisor) {
        return Err(Singular);
    }
    take_product(inverse, &w, slope / divisor, rows);
    Ok(())
}
