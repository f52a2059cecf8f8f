// What is written of an image before its curves.
ghost use Rattle.std.specs.Prelude.{◌++◌, ◌≤◌, length};
ghost use Rattle.network.specs.Network.{branch_limit};
ghost use Rattle.console.specs.Text.{Adds, HasRoom, Puts};
ghost use Rattle.report.specs.Fields.{named_line};
ghost use Rattle.parts.specs.Netlist.{setting_lines, element_lines};
ghost use Rattle.parts.specs.Answer.{Ready, unnamed_word, beginning};

use super::answer::Reason;
use super::element;
use console::text;
use console::text::Text;
use image::Parts;

// The settings. The version is a comment, for whoever asks `netlist` for it: the text can't.
fn put_settings(text: &mut Text, parts: Parts)
    requires { HasRoom 113 text.old }
    ensures { Puts (setting_lines parts) 113 text.old text.new }
{
    report::put_named(text, b"; version ", parts.version as u64);
    report::put_named(text, b"drives ", parts.driven as u64);
    report::put_named(text, b"output ", parts.output as u64);
    report::put_named(text, b"rate ", parts.rate as u64);
}

// The settings and the elements, at the start of `buffer`. Where they end.
fn put_netlist(buffer: &mut [u8], parts: Parts) -> usize
    requires { (parts.element_count ≤ branch_limit) × (4096 ≤ length buffer.old) }
    ensures { Adds (setting_lines parts ++ element_lines parts parts.element_count) 4096 0 buffer.old result buffer.new }
{
    let mut text = Text::new(buffer);
    put_settings(&mut text, parts);
    element::put_elements(&mut text, parts);
    text.end
}

// The one line of a node count that no netlist has, at the start of `buffer`. Where it ends.
fn put_unnamed(buffer: &mut [u8], nodes: u64) -> usize
    requires { 29 ≤ length buffer.old }
    ensures { Adds (named_line unnamed_word nodes) 29 0 buffer.old result buffer.new }
{
    let mut text = Text::new(buffer);
    report::put_named(&mut text, b"unnamed ", nodes);
    text.end
}

// The settings and the elements, or the one line in their place, at the start of `buffer`. Where they end.
pub fn put(buffer: &mut [u8], answer: &Result<Parts, Reason>) -> usize
    requires { Ready answer.now × (4096 ≤ length buffer.old) }
    ensures { Adds (beginning answer.now) 4096 0 buffer.old result buffer.new }
{
    match *answer {
        Ok(parts) => put_netlist(buffer, parts),
        Err(Reason::Refused(number)) => text::put_refused(buffer, u64::from(number)),
        Err(Reason::Unnamed(nodes)) => put_unnamed(buffer, nodes),
    }
}
