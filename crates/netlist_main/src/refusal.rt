// A refusal as a line of text in a lent buffer.
ghost use Rattle.std.specs.Prelude.{◌≤◌, length};
ghost use Rattle.console.specs.Text.{Adds};
ghost use Rattle.netlist_main.specs.Refusal.{refused_at, refusal};

use console::text;
use console::text::Text;
use netlist::Refusal;

// `refused R line N`, at the start of `buffer`. Where it ends.
fn put_at(buffer: &mut [u8], number: u64, line: usize) -> usize
    requires { 4096 ≤ length buffer.old }
    ensures { Adds (refused_at number line) 4096 0 buffer.old result buffer.new }
{
    let mut text = Text::new(buffer);
    text.put_word(b"refused ");
    text.put_decimal(number);
    text.put_word(b" line ");
    text.put_decimal(line as u64);
    text.put_word(b"\n");
    text.end
}

// The line of a refusal, at the start of `buffer`. Where it ends.
pub fn put(buffer: &mut [u8], why: Refusal) -> usize
    requires { 4096 ≤ length buffer.old }
    ensures { Adds (refusal why) 4096 0 buffer.old result buffer.new }
{
    let number = why.number();
    match why {
        Refusal::Rules(_) => text::put_refused(buffer, number),
        Refusal::Grammar(line) => put_at(buffer, number, line),
        Refusal::Value(line) => put_at(buffer, number, line),
    }
}
