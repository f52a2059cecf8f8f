// The last line: how rendering ended.
ghost use Rattle.std.specs.Prelude.{◌≤◌, length};
ghost use Rattle.console.specs.Text.{Adds};
ghost use Rattle.rendering.specs.Rendering.{ending};

use console::text::Text;

// `end N`, or `refused R after N`, at the start of `buffer`: document 01's number, 0 where every sample was
// accepted, and how many were, over all blocks. Where it ends.
pub fn put_ending(buffer: &mut [u8], number: u64, count: u64) -> usize
    requires { 56 ≤ length buffer.old }
    ensures { Adds (ending number count) 56 0 buffer.old result buffer.new }
{
    let mut text = Text::new(buffer);
    if number == 0 {
        text.put_word(b"end ");
    } else {
        text.put_word(b"refused ");
        text.put_decimal(number);
        text.put_word(b" after ");
    }
    text.put_decimal(count);
    text.put_word(b"\n");
    text.end
}
