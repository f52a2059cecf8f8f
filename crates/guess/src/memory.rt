// What the guess keeps from sample to sample.
//
// Whatever stands in it, what is read is a row or an element: no proof rests on what was noted.
ghost use Rattle.std.specs.Prelude.{◌≡◌, ◌≤◌, length};

use crate::matrix::Matrix;
use crate::tangent::Tangent;
use crate::way::Step;

#[derive(Clone, Copy)]
pub struct Memory {
    // The line that each element is taken as; of a stored element `at_zero` is old, and is never read.
    pub lines: [Tangent; 32],
    // The matrix of their slopes, and its inverse.
    pub slopes: Matrix,
    pub inverse: Matrix,
    // How many updates the inverse had since it was made; none if there is no inverse. With one free node
    // there is none, and this is zero once the curves are noted.
    pub updates: Option<usize>,
    // The elements that have curves, as many of these as are counted.
    pub curves: [usize; 32],
    pub curve_count: usize,
    // The rows that the stiff links join, the weightiest link first, as many of these as are counted; no
    // count if they are not known.
    pub links: [(usize, usize); 14],
    pub link_count: Option<usize>,
    // The way that the ties went, link by link, as many of these as are remembered.
    pub way: [Step; 15],
    pub remembered: usize,
}

impl Memory {
    // Before the first sample of a circuit.
    pub fn new() -> Memory
        ensures no_inverse { result.updates ≡ None }
        ensures no_curves { result.curve_count ≡ 0 }
        ensures no_links { result.link_count ≡ None }
        ensures no_way { result.remembered ≡ 0 }
    {
        Memory {
            lines: [Tangent::NONE; 32],
            slopes: [[0.0; 15]; 15],
            inverse: [[0.0; 15]; 15],
            updates: None,
            curves: [0; 32],
            curve_count: 0,
            links: [(0, 0); 14],
            link_count: None,
            way: [Step::NONE; 15],
            remembered: 0,
        }
    }

    // What was known of the links belonged to the matrix before.
    fn forget_links(&mut self) {
        self.link_count = None;
        self.remembered = 0;
    }

    // There is no inverse.
    pub(crate) fn lost(&mut self) {
        self.updates = None;
        self.forget_links();
    }

    // The inverse was just made.
    pub(crate) fn made(&mut self) {
        self.updates = Some(0);
        self.forget_links();
    }

    // .. once more updated.
    pub(crate) fn updated(&mut self) {
        if let Some(n) = self.updates {
            self.updates = Some(n.saturating_add(1));
        }
        self.forget_links();
    }

    // The elements that have curves.
    pub(crate) fn curves(&self) -> &[usize]
        ensures { length result.now ≤ 32 }
    {
        let n = self.curve_count;
        if n < 32 {
            &self.curves[..n]
        } else {
            &self.curves
        }
    }
}
