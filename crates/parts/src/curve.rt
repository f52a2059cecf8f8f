// A curve as a line of a netlist: slopes and breakpoints in turn.
ghost use Rattle.std.specs.Prelude.{◌++◌, ◌≤◌, pos, length};
ghost use Rattle.units.specs.Table.{in_turn};
ghost use Rattle.network.specs.Network.{breakpoint_count_limit};
ghost use Rattle.console.specs.Text.{Adds, HasRoom, Puts};
ghost use Rattle.report.specs.Curve.{spaced};
ghost use Rattle.parts.specs.Netlist.{stretch, curve_line};

use console::text::Text;
use image::Curve;

// A slope, and the breakpoint up to which it goes.
fn put_stretch(text: &mut Text, slope: u32, breakpoint: i32)
    requires { HasRoom 44 text.old }
    ensures { Puts (spaced (pos slope) ++ spaced breakpoint) 44 text.old text.new }
{
    report::put_spaced(text, i64::from(slope));
    report::put_spaced(text, i64::from(breakpoint));
}

// The first n of them.
fn put_stretches(text: &mut Text, slopes: [u32; 17], breakpoints: [i32; 16], n: usize)
    requires { (n ≤ breakpoint_count_limit) × HasRoom 704 text.old }
    ensures { Puts (in_turn (stretch slopes breakpoints) n) 704 text.old text.new }
{
    for j in 0..n {
        put_stretch(text, slopes[j], breakpoints[j]);
    }
}

// A curve's line, at the start of `buffer`. Where it ends.
pub fn put(buffer: &mut [u8], curve: Curve) -> usize
    requires { (curve.count ≤ breakpoint_count_limit) × (4096 ≤ length buffer.old) }
    ensures { Adds (curve_line curve) 4096 0 buffer.old result buffer.new }
{
    let m = curve.count as usize;
    let slopes = curve.slopes;
    let breakpoints = curve.breakpoints;
    let mut text = Text::new(buffer);
    text.put_word(b"curve");
    put_stretches(&mut text, slopes, breakpoints, m);
    report::put_spaced(&mut text, i64::from(slopes[m]));
    text.put_word(b"\n");
    text.end
}
