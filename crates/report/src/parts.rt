// A circuit's parts: a line for each of its numbers, and one for each element.
ghost use Rattle.std.specs.Prelude.{◌≡◌, ◌≤◌, length};
ghost use Rattle.network.specs.Network.{branch_limit};
ghost use Rattle.console.specs.Text.{Adds, HasRoom, Puts};
ghost use Rattle.image.specs.Sound.{Sound};
ghost use Rattle.report.specs.Parts.{node_numbers, size_numbers, letter, law_columns, element_line, element_lines, parts_lines};

use super::fields;
use console::text::Text;
use image::{Element, Parts};
use network::kind;
use network::kind::Kind;

// The version and the nodes.
fn put_node_numbers(text: &mut Text, parts: Parts)
    requires { HasRoom 112 text.old }
    ensures { Puts (node_numbers parts) 112 text.old text.new }
{
    fields::put_named(text, b"version ", parts.version as u64);
    fields::put_named(text, b"nodes ", parts.nodes as u64);
    fields::put_named(text, b"drives ", parts.driven as u64);
    fields::put_named(text, b"output ", parts.output as u64);
}

// The rate, and how many elements and curves there are.
fn put_size_numbers(text: &mut Text, parts: Parts)
    requires { HasRoom 84 text.old }
    ensures { Puts (size_numbers parts) 84 text.old text.new }
{
    fields::put_named(text, b"rate ", parts.rate as u64);
    fields::put_named(text, b"elements ", parts.element_count as u64);
    fields::put_named(text, b"curves ", parts.curve_count as u64);
}

// A kind's letter.
pub fn letter(kind: u8) -> u8
    ensures { result ≡ letter kind }
{
    match Kind::of(kind as u64) {
        Some(Kind::Resistor) => b'R',
        Some(Kind::Capacitor) => b'C',
        Some(Kind::Inductor) => b'L',
        _ => b'D',
    }
}

// What makes an element's current.
fn put_law(text: &mut Text, e: Element, rate: u32)
    requires { HasRoom 42 text.old }
    ensures { Puts (law_columns rate e) 42 text.old text.new }
{
    if kind::has_curve(e.kind as u64) {
        fields::put_last(text, e.curve as u64);
        return;
    }
    fields::put_column(text, e.value as u64);
    fields::put_last(text, image::conductance(e.kind, e.value, rate));
}

// An element's line.
fn put_element(text: &mut Text, e: Element, rate: u32)
    requires { HasRoom 86 text.old }
    ensures { Puts (element_line rate e) 86 text.old text.new }
{
    text.put_word(&[letter(e.kind), b' ']);
    fields::put_column(text, e.p as u64);
    fields::put_column(text, e.q as u64);
    put_law(text, e, rate);
}

// A line for each element.
fn put_elements(text: &mut Text, parts: Parts)
    requires { (parts.element_count ≤ branch_limit) × HasRoom 2752 text.old }
    ensures { Puts (element_lines parts parts.element_count) 2752 text.old text.new }
{
    let elements = parts.elements;
    let n = parts.element_count as usize;
    for e in &elements[..n] {
        put_element(text, *e, parts.rate);
    }
}

// All of these lines, at the start of `buffer`. Where they end.
pub fn put_parts(buffer: &mut [u8], parts: Parts) -> usize
    requires { Sound parts × (4096 ≤ length buffer.old) }
    ensures { Adds (parts_lines parts) 4096 0 buffer.old result buffer.new }
{
    let mut text = Text::new(buffer);
    put_node_numbers(&mut text, parts);
    put_size_numbers(&mut text, parts);
    put_elements(&mut text, parts);
    text.end
}
