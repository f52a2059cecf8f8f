// What a line says.
use image::{Curve, Element};

// What a circuit has one of.
#[derive(Clone, Copy)]
pub enum Field {
    Drives,
    Output,
    Rate,
}

// Nothing that the grammar has; nothing; an element, a stage of whose value is outside the limits; an
// element; a setting; a curve.
#[derive(Clone, Copy)]
pub enum Line {
    Broken,
    Empty,
    Outside,
    Part(Element),
    Setting(Field, u32),
    Curve(Curve),
}
