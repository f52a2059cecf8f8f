// Which links are tied, and in which order: by the matrix of the slopes alone, so that it is found once
// for each matrix.
//
// A link is stiff if the lighter of the two sets that it joins has to move far to take up what one
// microvolt across it carries. Of the stiff ones the one that weighs most, by its conductance and its
// stiffness, is first; the sets that it joins are one from then on.
ghost use Rattle.std.specs.Prelude.{◌<◌, ◌≤◌};

use crate::matrix::Matrix;
use crate::rows::Rows;

// The rows of the two sets that a link joins.
#[derive(Clone, Copy)]
struct Link {
    one: usize,
    other: usize,
    ghost one_there: { one < 15 },
    ghost other_there: { other < 15 },
}

// A link less stiff than this is left to the integers.
const LEAST_STIFFNESS: f64 = 4.0;

// What a link of conductance g weighs between sets with these conductances out of them; nothing if it is
// not stiff.
fn weight(g: f64, one: f64, other: f64) -> f64 {
    let least = if one < other { one - g } else { other - g };
    let light = if least < 1.0 { 1.0 } else { least };
    if g < LEAST_STIFFNESS * light {
        return 0.0;
    }
    g / light * g
}

// The weightiest of all that weigh anything.
fn heaviest(c: &Matrix, rows: Rows) -> Option<Link> {
    let mut best: Option<Link> = None;
    let mut most: f64 = 0.0;
    for k in rows.first..rows.end {
        for j in k + 1..rows.end {
            if c[k][j] < 0.0 {
                let w = weight(-c[k][j], c[k][k], c[j][j]);
                if most < w {
                    most = w;
                    best = Some(Link { one: k, other: j });
                }
            }
        }
    }
    best
}

// What row k has in column l goes to row i, column j.
fn pour(c: &mut Matrix, i: usize, j: usize, k: usize, l: usize)
    requires { (i < 15) × (j < 15) × (k < 15) × (l < 15) }
{
    c[i][j] += c[k][l];
    c[k][l] = 0.0;
}

// The sets of the rows r and s become one, under r. Between sets the matrix has their links, and on its
// diagonal what leads out of a set.
fn merge(c: &mut Matrix, r: usize, s: usize, end: usize)
    requires { (r < 15) × (s < 15) × (end ≤ 15) }
{
    for j in 0..end {
        pour(c, r, j, s, j);
    }
    for i in 0..end {
        pour(c, i, r, i, s);
    }
}

// The stiff links of m, the weightiest first, and how many there are.
pub fn order(m: &Matrix, rows: Rows, links: &mut [(usize, usize); 14]) -> usize
    ensures { result ≤ 14 }
{
    let mut c = *m;
    for k in 0..14 {
        let Some(link) = heaviest(&c, rows) else {
            return k;
        };
        links[k] = (link.one, link.other);
        merge(&mut c, link.one, link.other, rows.end);
    }
    14
}
