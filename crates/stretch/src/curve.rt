// A curve of the table of stretches, and its current.
ghost use Rattle.std.specs.Prelude.{true, cond, ◌≡◌, ◌+◌, ◌≤◌, ◌<◌, ◌-ℤ◌};
ghost use Rattle.std.specs.Int.Signed.{lt_z};
ghost use Rattle.units.specs.Voltage.{Within};
ghost use Rattle.network.specs.Network.{greatest, breakpoint_limit, Rising};
ghost use Rattle.stretch.specs.Stretch.{rows, stretch_of, Near, slopes_in, breakpoints_in, curve_current, CurveReady};

use crate::stretches;

// A curve as it stands in the table: how many breakpoints it has, and the row of its first stretch.
#[derive(Clone, Copy)]
pub struct Curve<'a> {
    pub stretches: &'a [i64; 408],
    pub first: usize,
    pub breakpoints: usize,
}

// How far a look at the last breakpoint of `half` of them carries the search: past them all, if v has
// reached it.
fn passed(v: i64, breakpoint: i64, half: usize) -> usize
    ensures { result ≡ cond (lt_z v breakpoint) 0 half }
{
    if v < breakpoint { 0 } else { half }
}

impl Curve<'_> {
    // A row at or before that of v's stretch, and at most four before it. v's stretch is the row's or at most
    // `left` later; each look halves what is left.
    fn near(&self, v: i64) -> usize
        requires { (self.now.first + self.now.breakpoints < rows) × Rising (breakpoints_in self.now.stretches.now self.now.first self.now.breakpoints) }
        ensures { Near (breakpoints_in self.now.stretches.now self.now.first self.now.breakpoints) v self.now.first result }
    {
        let mut row = self.first;
        let mut left = self.breakpoints;
        while 4 < left {
            let half = left / 2;
            row += passed(
                v,
                stretches::breakpoint(self.stretches, row + half - 1),
                half,
            );
            left -= half;
        }
        row
    }

    // From a row at or before that of v's stretch on, the row of v's stretch. It is found from the left: where
    // jumps are foreseen and rows are few, that is faster than to halve them.
    fn onward(&self, v: i64, from: usize) -> usize
        requires { (self.now.first + self.now.breakpoints < rows) × Rising (breakpoints_in self.now.stretches.now self.now.first self.now.breakpoints) × (self.now.first ≤ from) × (from ≤ self.now.first + stretch_of (breakpoints_in self.now.stretches.now self.now.first self.now.breakpoints) v) }
        ensures { result ≡ self.now.first + stretch_of (breakpoints_in self.now.stretches.now self.now.first self.now.breakpoints) v }
    {
        let end = self.first + self.breakpoints;
        for row in from..end {
            if v < stretches::breakpoint(self.stretches, row) {
                return row;
            }
        }
        end
    }

    // The row of v's stretch.
    fn row_of(&self, v: i64) -> usize
        requires { (self.now.first + self.now.breakpoints < rows) × Rising (breakpoints_in self.now.stretches.now self.now.first self.now.breakpoints) }
        ensures { result ≡ self.now.first + stretch_of (breakpoints_in self.now.stretches.now self.now.first self.now.breakpoints) v }
    {
        self.onward(v, self.near(v))
    }

    // The stretch that v lies in.
    pub fn stretch(&self, v: i64) -> usize
        requires { (self.now.first + self.now.breakpoints < rows) × Rising (breakpoints_in self.now.stretches.now self.now.first self.now.breakpoints) }
        ensures { result ≡ stretch_of (breakpoints_in self.now.stretches.now self.now.first self.now.breakpoints) v }
    {
        self.row_of(v) - self.first
    }

    // The current at v: that of the line of v's stretch, whose row is handed over.
    fn line(&self, v: i64, row: usize) -> i64
        requires { CurveReady self.now.stretches.now self.now.first self.now.breakpoints × Within breakpoint_limit v × (row ≡ self.now.first + stretch_of (breakpoints_in self.now.stretches.now self.now.first self.now.breakpoints) v) }
        ensures { result ≡ curve_current self.now.stretches.now self.now.first self.now.breakpoints v }
    {
        stretches::slope(self.stretches, row) as i64 * v + stretches::at_zero(self.stretches, row)
    }

    // .. wherever its row is.
    pub fn current(&self, v: i64) -> i64
        requires { CurveReady self.now.stretches.now self.now.first self.now.breakpoints × Within breakpoint_limit v }
        ensures { result ≡ curve_current self.now.stretches.now self.now.first self.now.breakpoints v }
    {
        self.line(v, self.row_of(v))
    }

    // Whether v lies in the stretch of a row, or beyond it.
    fn has_reached(&self, v: i64, row: usize) -> bool
        requires { (self.now.first + self.now.breakpoints < rows) × Rising (breakpoints_in self.now.stretches.now self.now.first self.now.breakpoints) × (self.now.first ≤ row) × (row ≤ self.now.first + self.now.breakpoints) }
        ensures { result ≡ true → row ≤ self.now.first + stretch_of (breakpoints_in self.now.stretches.now self.now.first self.now.breakpoints) v }
    {
        row == self.first || stretches::breakpoint(self.stretches, row - 1) <= v
    }

    // Whether it lies in it.
    fn lies_in(&self, v: i64, row: usize) -> bool
        requires { (self.now.first + self.now.breakpoints < rows) × Rising (breakpoints_in self.now.stretches.now self.now.first self.now.breakpoints) × (self.now.first ≤ row) × (row ≤ self.now.first + self.now.breakpoints) }
        ensures { result ≡ true → row ≡ self.now.first + stretch_of (breakpoints_in self.now.stretches.now self.now.first self.now.breakpoints) v }
    {
        self.has_reached(v, row)
            && (row == self.first + self.breakpoints
                || v < stretches::breakpoint(self.stretches, row))
    }

    // What the curve carries more at `to` than at `from`. Mostly both lie in one stretch, and only one of them
    // is searched for.
    pub fn change(&self, from: i64, to: i64) -> i64
        requires { CurveReady self.now.stretches.now self.now.first self.now.breakpoints × Within breakpoint_limit from × Within breakpoint_limit to }
        ensures { result ≡ curve_current self.now.stretches.now self.now.first self.now.breakpoints to -ℤ curve_current self.now.stretches.now self.now.first self.now.breakpoints from }
    {
        let row = self.row_of(from);
        if self.lies_in(to, row) {
            return stretches::slope(self.stretches, row) as i64 * (to - from);
        }
        self.current(to) - self.line(from, row)
    }

    // The greatest slope.
    pub fn steepest(&self) -> u64
        requires { self.now.first + self.now.breakpoints < rows }
        ensures { result ≡ greatest (slopes_in self.now.stretches.now self.now.first self.now.breakpoints) }
    {
        let mut most = 0;
        for i in 0..self.breakpoints + 1 {
            most = stretches::slope(self.stretches, self.first + i).max(most);
        }
        most
    }
}
