// Conductances in nanosiemens: the leak of a version, the rule of each kind, and rule 6 over a
// circuit's parts. Document 01's quotients are reduced by 2 here, so that both sides fit 64 bits for any
// value and rate.
ghost use Rattle.std.specs.Prelude.{◌≡◌, ℕ, get_or};
ghost use Rattle.units.specs.Table.{every};
ghost use Rattle.image.specs.Parts.{no_element};
ghost use Rattle.image.specs.Conductance.{resistor_conductance, capacitor_conductance, inductor_conductance, conductance_by, conductance_fits, conductances_fit};
ghost use Rattle.image.specs.Setting.{plain};
ghost use Rattle.image.specs.Meaning.{leak_of};

use super::limits;
use super::parts::{Element, Parts};
use network::kind;
use network::kind::Kind;
use units::ratio;

// The leak of every free node, by the image's version.
pub fn leak(version: u8) -> u64
    ensures { result ≡ leak_of version }
{
    if version == limits::VERSION_1 {
        return 1;
    }
    10
}

fn resistor(ohms: u32) -> u64
    ensures { result ≡ resistor_conductance ohms }
{
    ratio::nearest(1000000000, ohms as u64)
}

fn capacitor(picofarads: u32, rate: u32) -> u64
    ensures { result ≡ capacitor_conductance picofarads rate }
{
    ratio::nearest((picofarads as u64) * (rate as u64), 500)
}

fn inductor(microhenries: u32, rate: u32) -> u64
    ensures { result ≡ inductor_conductance microhenries rate }
{
    ratio::nearest(500000000000000, (microhenries as u64) * (rate as u64))
}

// By the kind; a diode has none.
pub fn conductance(kind: u8, value: u32, rate: u32) -> u64
    ensures { result ≡ conductance_by kind value rate }
{
    match Kind::of(kind as u64) {
        Some(Kind::Resistor) => resistor(value),
        Some(Kind::Capacitor) => capacitor(value, rate),
        Some(Kind::Inductor) => inductor(value, rate),
        Some(Kind::Diode) => 0,
        None => 0,
    }
}

fn conductance_fits(kind: u8, g: u64) -> bool
    ensures { result ≡ conductance_fits kind g }
{
    kind::has_curve(kind as u64) | ((1 <= g) & (g <= limits::CONDUCTANCE))
}

// Whether those of all elements are in their limits, where they have one. Where a count is past the array,
// what stands past it has none that fits.
pub fn conductances_fit(parts: Parts) -> bool
    ensures { result ≡ conductances_fit parts plain }
{
    let Some(elements) = parts.elements.get(..parts.element_count as usize) else {
        return false;
    };
    elements.iter().all(|e| conductance_fits(e.kind, conductance(e.kind, e.value, parts.rate)))
}
