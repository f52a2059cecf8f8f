// Whole numbers among floats.

// From 2^52 to 2^53 an f64 has room for whole numbers alone; this stands in the middle.
const WHOLE: f64 = 6755399441055744.0;

// What misses a whole number by less than this is taken for it: elimination rounds.
pub const ROUNDED: f64 = 0.000001;

// The nearest whole number, of anything below 2^51.
pub fn nearest(x: f64) -> f64 {
    (x + WHOLE) - WHOLE
}

// The whole number at or below x.
pub fn floor(x: f64) -> f64 {
    let y = x + ROUNDED;
    let whole = nearest(y);
    if y < whole {
        return whole - 1.0;
    }
    whole
}

// What x has above the whole number below it.
pub fn fraction(x: f64) -> f64 {
    let above = x - floor(x);
    if above < 0.0 { 0.0 } else { above }
}

pub fn size(x: f64) -> f64 {
    if x < 0.0 { -x } else { x }
}
