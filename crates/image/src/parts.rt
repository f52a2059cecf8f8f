// A circuit's parts, in the widths of the image, so that a copy is small. Places past a count, and
// slopes and breakpoints past a curve's own, mean nothing; the reader leaves zeros there.
ghost use Rattle.std.specs.Prelude.{◌≡◌};
ghost use Rattle.image.specs.Parts.{no_element, no_curve, no_parts, in_version};

#[derive(Clone, Copy)]
pub struct Element {
    // Resistor, capacitor, inductor or diode.
    pub kind: u8,
    // The two ends.
    pub p: u8,
    pub q: u8,
    // The index of a diode's curve.
    pub curve: u8,
    // Ohms, picofarads or microhenries.
    pub value: u32,
}

#[derive(Clone, Copy)]
pub struct Curve {
    // How many breakpoints there are; there is one slope more.
    pub count: u8,
    pub slopes: [u32; 17],
    pub breakpoints: [i32; 16],
}

#[derive(Clone, Copy)]
pub struct Parts {
    pub version: u8,
    // Nodes besides ground, how many of them are driven, and which is heard.
    pub nodes: u8,
    pub driven: u8,
    pub output: u8,
    // Samples a second.
    pub rate: u32,
    pub element_count: u8,
    pub elements: [Element; 32],
    pub curve_count: u8,
    pub curves: [Curve; 8],
}

// What stands where there is none: zeros.
pub fn no_element() -> Element
    ensures { result ≡ no_element }
{
    Element {
        kind: 0,
        p: 0,
        q: 0,
        curve: 0,
        value: 0,
    }
}

pub fn no_curve() -> Curve
    ensures { result ≡ no_curve }
{
    Curve {
        count: 0,
        slopes: [0; 17],
        breakpoints: [0; 16],
    }
}

pub fn no_parts() -> Parts
    ensures { result ≡ no_parts }
{
    let no_element = no_element();
    let no_curve = no_curve();
    Parts {
        version: 0,
        nodes: 0,
        driven: 0,
        output: 0,
        rate: 0,
        element_count: 0,
        elements: [no_element; 32],
        curve_count: 0,
        curves: [no_curve; 8],
    }
}

// Parts, taken for those of a version.
pub fn in_version(version: u8, parts: Parts) -> Parts
    ensures { result ≡ in_version version parts }
{
    Parts { version, ..parts }
}
