// The elements as lines of a netlist.
ghost use Rattle.std.specs.Prelude.{◌≡◌, ◌≤◌};
ghost use Rattle.network.specs.Network.{branch_limit};
ghost use Rattle.console.specs.Text.{HasRoom, Puts};
ghost use Rattle.parts.specs.Netlist.{last_number, element_line, element_lines};

use console::text::Text;
use image::{Element, Parts};
use network::kind;

// The number at the end of a line: a diode's curve, or the value of any other.
fn last_number(e: Element) -> u64
    ensures { result ≡ last_number e }
{
    if kind::has_curve(e.kind as u64) {
        return e.curve as u64;
    }
    e.value as u64
}

// An element's line, with a number for its name: names need only begin with the letter.
fn put_element(text: &mut Text, number: usize, e: Element)
    requires { HasRoom 85 text.old }
    ensures { Puts (element_line number e) 85 text.old text.new }
{
    text.put_word(&[report::letter(e.kind)]);
    report::put_column(text, number as u64);
    report::put_column(text, e.p as u64);
    report::put_column(text, e.q as u64);
    report::put_last(text, last_number(e));
}

// A line for each element, in the order of the image, which a reader keeps.
pub fn put_elements(text: &mut Text, parts: Parts)
    requires { (parts.element_count ≤ branch_limit) × HasRoom 2720 text.old }
    ensures { Puts (element_lines parts parts.element_count) 2720 text.old text.new }
{
    let elements = parts.elements;
    for (j, e) in elements[..parts.element_count as usize].iter().enumerate() {
        put_element(text, j + 1, *e);
    }
}
