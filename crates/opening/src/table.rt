// The table of stretches of all curves, 17 rows each.
ghost use Rattle.std.specs.Prelude.{◌≡◌, pos, length, replicate};
ghost use Rattle.image.specs.Sound.{Sound};
ghost use Rattle.stretch.specs.Stretch.{stretches_size};
ghost use Rattle.opening.specs.Opening.{stretches_of};

use image::{Curve, Parts};
use stretch::drawing;

// The curves once more. That there are eight of them is known of an array, and not of a struct's field.
fn known(curves: [Curve; 8]) -> [Curve; 8]
    ensures { (result ≡ curves) × (length curves ≡ 8) }
{
    curves
}

// Fills a table of zeros.
pub fn stretches(parts: Parts, table: &mut [i64; 408])
    requires { Sound parts × (table.old ≡ replicate stretches_size (pos 0)) }
    ensures { table.new ≡ stretches_of parts }
{
    let given = parts.curves;
    let curves = known(given);
    for k in 0..parts.curve_count as usize {
        let c = curves[k];
        let slopes = c.slopes;
        let breakpoints = c.breakpoints;
        drawing::fill(&slopes, &breakpoints, c.count as usize, 17 * k, table);
    }
}
