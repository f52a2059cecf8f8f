// A curve in the words that the bench's circuits use for one.
ghost use Rattle.std.specs.Prelude.{◌≡◌, ℕ, ◌+◌, ◌*◌, ◌≤◌, ℤ, length};
ghost use Rattle.network.specs.Network.{breakpoint_count_limit};
ghost use Rattle.console.specs.Text.{Adds, HasRoom, Puts};
ghost use Rattle.report.specs.Curve.{spaced, spaced_all, ReadAs, curve_lines};

use console::text::Text;
use image::Curve;

// A space and a number.
pub fn put_spaced(text: &mut Text, z: i64)
    requires { HasRoom 22 text.old }
    ensures { Puts (spaced z) 22 text.old text.new }
{
    text.put_word(b" ");
    text.put_number(z);
}

// Slopes or breakpoints: numbers z 0, z 1, .. of any type that is read as one with a sign.
fn put_all<T: Copy + Into<i64>>(text: &mut Text, numbers: &[T])
    requires { HasRoom (22 * length numbers.now) text.old }
    ensures within { text.new.end ≤ text.old.end + 22 * length numbers.now }
    ensures as_long { length text.new.buffer.now ≡ length text.old.buffer.now }
    ensures text { (z : ℕ → ℤ) → ReadAs T.converts numbers.now z → Puts (spaced_all z (length numbers.now)) (22 * length numbers.now) text.old text.new }
{
    for number in numbers {
        put_spaced(text, (*number).into());
    }
}

// A curve's two lines, at the start of `buffer`. Where they end.
pub fn put_curve(buffer: &mut [u8], curve: Curve) -> usize
    requires { (curve.count ≤ breakpoint_count_limit) × (4096 ≤ length buffer.old) }
    ensures { Adds (curve_lines curve) 4096 0 buffer.old result buffer.new }
{
    let m = curve.count as usize;
    let slopes = curve.slopes;
    let breakpoints = curve.breakpoints;
    let mut text = Text::new(buffer);
    text.put_word(b"slopes");
    put_all(&mut text, &slopes[..=m]);
    text.put_word(b"\n");
    text.put_word(b"breakpoints");
    put_all(&mut text, &breakpoints[..m]);
    text.put_word(b"\n");
    text.end
}
