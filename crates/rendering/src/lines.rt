// A block's outputs as lines of text.
ghost use Rattle.std.specs.Prelude.{◌*◌, ◌≤◌, length};
ghost use Rattle.console.specs.Text.{Adds};
ghost use Rattle.block.specs.Host.{output_at};
ghost use Rattle.rendering.specs.Rendering.{lines};

use console::text::Text;
use units::bytes;

// The first n of a block's outputs, a line each, at the start of `buffer`. Where they end.
pub fn put_lines(buffer: &mut [u8], outputs: &[u8], n: usize) -> usize
    requires { (4 * n ≤ length outputs.now) × (22 * n ≤ length buffer.old) }
    ensures { Adds (lines (output_at outputs.now) n) (22 * n) 0 buffer.old result buffer.new }
{
    let mut text = Text::new(buffer);
    for j in 0..n {
        text.put_line(bytes::signed_at::<4>(outputs, 4 * j));
    }
    text.end
}
