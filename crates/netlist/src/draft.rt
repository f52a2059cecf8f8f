// A circuit's parts as far as the lines have told them, and which settings these have said.
ghost use Rattle.std.specs.Prelude.{◌≡◌};
ghost use Rattle.netlist.specs.Draft.{with_element, with_curve, with_setting, blank_draft, said, complete, fault_of, reparted, noted, with_line};
ghost use Rattle.netlist.specs.Kept.{kept_header, header_kept};

use super::said::{Field, Line};
use super::{field, store};
use image::{Curve, Element, Parts};

// The parts, and whether `drives`, `output` and `rate` have been said.
#[derive(Clone, Copy)]
pub struct Draft {
    pub parts: Parts,
    pub drives: bool,
    pub output: bool,
    pub rate: bool,
}

// What is wrong with a line: that it is outside the grammar, or its value.
#[derive(Clone, Copy)]
pub enum Fault {
    Grammar,
    Value,
}

// Before the first line.
pub fn blank() -> Draft
    ensures { result ≡ blank_draft }
{
    let parts = image::in_version(image::VERSION_2, image::no_parts());
    Draft {
        parts,
        drives: false,
        output: false,
        rate: false,
    }
}

// The parts with an element more.
fn with_element(parts: Parts, e: Element) -> Parts
    ensures { result ≡ kept_header (with_element parts e) }
{
    let mut more = parts;
    more.elements = store::set_at(parts.elements, parts.element_count as usize, e);
    more.element_count = field::counted(parts.element_count);
    more.nodes = parts.nodes.max(e.p.max(e.q));
    more
}

// The parts with a curve more.
fn with_curve(parts: Parts, c: Curve) -> Parts
    ensures { result ≡ kept_header (with_curve parts c) }
{
    let mut more = parts;
    more.curves = store::set_at(parts.curves, parts.curve_count as usize, c);
    more.curve_count = field::counted(parts.curve_count);
    more
}

// The parts with a setting.
fn with_setting(parts: Parts, field: Field, n: u32) -> Parts
    ensures { result ≡ kept_header (with_setting parts field n) }
{
    let mut more = parts;
    match field {
        Field::Drives => {
            more.driven = field::narrow(n);
        }
        Field::Output => {
            let node = field::narrow(n);
            more.output = node;
            more.nodes = parts.nodes.max(node);
        }
        Field::Rate => {
            more.rate = n;
        }
    }
    more
}

// Whether a setting has been said.
fn has_said(draft: Draft, field: Field) -> bool
    ensures { result ≡ said draft field }
{
    match field {
        Field::Drives => draft.drives,
        Field::Output => draft.output,
        Field::Rate => draft.rate,
    }
}

// Whether all settings have been said.
pub fn complete(draft: Draft) -> bool
    ensures { result ≡ complete draft }
{
    draft.drives & draft.output & draft.rate
}

// What is wrong with a line after those before it, if anything is.
pub fn fault_in(draft: Draft, line: Line) -> Option<Fault>
    ensures { result ≡ fault_of draft line }
{
    match line {
        Line::Broken => Some(Fault::Grammar),
        Line::Outside => Some(Fault::Value),
        Line::Setting(field, _) => {
            if has_said(draft, field) {
                return Some(Fault::Grammar);
            }
            None
        }
        Line::Empty => None,
        Line::Part(_) => None,
        Line::Curve(_) => None,
    }
}

// The draft with other parts.
fn reparted(draft: Draft, parts: Parts) -> Draft
    ensures { result ≡ reparted draft parts }
{
    let mut other = draft;
    other.parts = parts;
    other
}

// The draft, a setting having been said.
fn noted(draft: Draft, field: Field) -> Draft
    ensures { result ≡ noted draft field }
{
    let mut other = draft;
    match field {
        Field::Drives => {
            other.drives = true;
        }
        Field::Output => {
            other.output = true;
        }
        Field::Rate => {
            other.rate = true;
        }
    }
    other
}

// The draft with a line more.
pub fn with_line(draft: Draft, line: Line) -> Draft
    ensures { result ≡ header_kept (with_line draft line) }
{
    let parts = draft.parts;
    match line {
        Line::Broken => draft,
        Line::Empty => draft,
        Line::Outside => draft,
        Line::Part(e) => reparted(draft, with_element(parts, e)),
        Line::Setting(field, n) => noted(reparted(draft, with_setting(parts, field, n)), field),
        Line::Curve(curve) => reparted(draft, with_curve(parts, curve)),
    }
}
